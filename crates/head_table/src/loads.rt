// Loads of single words. Each is one atomic load.
ghost use Rattle.std.specs.Prelude.{◌≡◌, ◌<◌, length, ◌≤ℤ◌};
ghost use Rattle.step_problem.specs.declared.heads.Side.TheVariants.{Low, High};
ghost use Rattle.cell_relax.specs.{AreNoLooser, IsAsTight, other};
ghost use Rattle.relax_core.specs.{edge_on};
ghost use Rattle.head_table.specs.{AreNoTighterThanSettled, IsNoTighterThanSettled, IsSeatOf, SameOn, SameOnBut, ShowsSeen, barrier_of, seen_of, seen_on};

use crate::coding::{head_from_word, word_of};
use crate::known::Look;
use crate::table::{HeadSeat, HeadTable};
use step_problem::{Bound, Problem, Side};

impl<'a> HeadTable<'a> {
    /// The problem whose heads these are.
    pub fn problem(&self) -> &'a Problem
        ensures { result.now ≡ self.now.problem.now }
    {
        self.problem
    }

    /// Loads the head of a cell on a side. It is as tight as what the seat had seen there, and no tighter than that
    /// of any settled heads past the barrier.
    #[inline(always)]
    pub fn load(&self, seat: &mut HeadSeat, side: Side, cell: usize) -> i64
        requires seat { IsSeatOf self.now seat.old }
        requires cell { cell < length self.now.problem.now }
        ensures seat { IsSeatOf self.now seat.new }
        ensures seen { seen_on side seat.new cell ≡ result }
        ensures later { IsAsTight side (seen_on side seat.old cell) result }
        ensures held { IsNoTighterThanSettled side self.now.problem.now (edge_on side (barrier_of self.now)) cell result }
        ensures others { SameOnBut side cell seat.old seat.new }
        ensures opposite { SameOn (other side) seat.old seat.new }
    {
        self.problem.recall_conditions();
        let word = word_of(side, cell);
        let found = self.table.shared.load::<Look>(&mut seat.seat, word);
        head_from_word(found)
    }

    /// Loads the lower head of a cell.
    pub fn load_low(&self, seat: &mut HeadSeat, cell: usize) -> i64
        requires seat { IsSeatOf self.now seat.old }
        requires cell { cell < length self.now.problem.now }
        ensures seat { IsSeatOf self.now seat.new }
        ensures seen { seen_on Low seat.new cell ≡ result }
        ensures later { seen_on Low seat.old cell ≤ℤ result }
        ensures held { IsNoTighterThanSettled Low self.now.problem.now (edge_on Low (barrier_of self.now)) cell result }
        ensures others { SameOnBut Low cell seat.old seat.new }
        ensures high { SameOn High seat.old seat.new }
    {
        self.load(seat, Side::Low, cell)
    }

    /// Loads the upper head of a cell.
    pub fn load_high(&self, seat: &mut HeadSeat, cell: usize) -> i64
        requires seat { IsSeatOf self.now seat.old }
        requires cell { cell < length self.now.problem.now }
        ensures seat { IsSeatOf self.now seat.new }
        ensures seen { seen_on High seat.new cell ≡ result }
        ensures later { result ≤ℤ seen_on High seat.old cell }
        ensures held { IsNoTighterThanSettled High self.now.problem.now (edge_on High (barrier_of self.now)) cell result }
        ensures others { SameOnBut High cell seat.old seat.new }
        ensures low { SameOn Low seat.old seat.new }
    {
        self.load(seat, Side::High, cell)
    }

    /// Loads each word once, into a slice of one bound for each cell. The result is no looser than what the
    /// seat had seen, and no tighter than any settled heads past the barrier.
    pub fn watch(&self, seat: &mut HeadSeat, bounds: &mut [Bound])
        requires seat { IsSeatOf self.now seat.old }
        requires len { length bounds.old ≡ length self.now.problem.now }
        ensures seat { IsSeatOf self.now seat.new }
        ensures shown { ShowsSeen self.now.problem.now seat.new bounds.new }
        ensures held { AreNoTighterThanSettled self.now.problem.now (barrier_of self.now) bounds.new }
        ensures no_looser { AreNoLooser self.now.problem.now (seen_of seat.old) (seen_of seat.new) }
    {
        for cell in 0..bounds.len() {
            let low = self.load(seat, Side::Low, cell);
            let high = self.load(seat, Side::High, cell);
            bounds[cell] = Bound { low, high };
        }
    }
}
