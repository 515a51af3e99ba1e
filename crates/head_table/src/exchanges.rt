// Single exchanges of words: each is one atomic step.
ghost use Rattle.std.specs.Prelude.{◌≡◌, ◌<◌, length, ◌≤ℤ◌};
ghost use Rattle.std.specs.Int.{int_max, int_min};
ghost use Rattle.atomic_table.specs.Table.{Allows, step};
ghost use mathlib.Core.Option.{none};
ghost use Rattle.step_problem.specs.{IsRaise, IsSink};
ghost use Rattle.step_problem.specs.declared.heads.Side.TheVariants.{Low, High};
ghost use Rattle.cell_relax.specs.{IsAsTight, IsRelaxedOn, other, tighter_of};
ghost use Rattle.head_table.specs.{IsSeatOf, IsTableKept, SameOn, SameOnBut, exchange_play, seen_of, seen_on, tighter_word};

use crate::coding::{head_from_word, word_of, word_of_head};
use crate::known::{Claim, Known, Tighten};
use crate::table::{HeadSeat, HeadTable};
use atomic_table::Seat;
use step_problem::Side;

impl<'a> HeadTable<'a> {
    // Puts the tighter of a word and `to` in the word's place. Returns the word before.
    #[inline(always)]
    fn tighten(&self, seat: &mut Seat<(), Known>, side: Side, word: usize, to: u64) -> u64
        requires seat { seat.old.table_id ≡ self.now.table.shared.table_id }
        requires word { word < self.now.table.shared.table_id.words }
        requires allows { let t = self.now.table.shared in
            Allows (IsTableKept t.key.problem.value t.key.barrier.value) t.table_id.slots seat.old.id seat.old.me word
            (λ n. tighter_word side n to) (exchange_play (step t.table_id.slots word to 0 none) seat.old.me) }
        ensures seat { seat.new.table_id ≡ seat.old.table_id }
        ensures play { exchange_play (step self.now.table.shared.table_id.slots word to 0 none) seat.old.me result seat.new.me }
    {
        match side {
            Side::Low => self.table.shared.fetch_max::<Tighten>(seat, word, to),
            Side::High => self.table.shared.fetch_min::<Tighten>(seat, word, to),
        }
    }

    /// Raises or sinks the word of a cell to `to`, its relaxed head from what the seat has seen, unless it is tighter.
    /// Returns the word before.
    #[inline(always)]
    pub fn exchange(&self, seat: &mut HeadSeat, side: Side, cell: usize, to: i64) -> i64
        requires seat { IsSeatOf self.now seat.old }
        requires cell { cell < length self.now.problem.now }
        requires to { IsRelaxedOn side self.now.problem.now (seen_on side seat.old) cell to }
        ensures seat { IsSeatOf self.now seat.new }
        ensures before { IsAsTight side (seen_on side seat.old cell) result }
        ensures seen { seen_on side seat.new cell ≡ tighter_of side result to }
        ensures others { SameOnBut side cell seat.old seat.new }
        ensures opposite { SameOn (other side) seat.old seat.new }
    {
        self.problem.recall_conditions();
        let place = word_of(side, cell);
        let word = word_of_head(to);
        let found = self.tighten(&mut seat.seat, side, place, word);
        head_from_word(found)
    }

    /// Raises the lower word of a cell to `to`, its raise value from what the seat has seen, unless it is
    /// higher. Returns the word before.
    pub fn raise(&self, seat: &mut HeadSeat, cell: usize, to: i64) -> i64
        requires seat { IsSeatOf self.now seat.old }
        requires cell { cell < length self.now.problem.now }
        requires to { IsRaise self.now.problem.now (seen_on Low seat.old) cell to }
        ensures seat { IsSeatOf self.now seat.new }
        ensures before { seen_on Low seat.old cell ≤ℤ result }
        ensures seen { seen_on Low seat.new cell ≡ int_max result to }
        ensures others { SameOnBut Low cell seat.old seat.new }
        ensures high { SameOn High seat.old seat.new }
    {
        self.exchange(seat, Side::Low, cell, to)
    }

    /// Sinks the upper word of a cell to `to`, its sink value from what the seat has seen, unless it is
    /// lower. Returns the word before.
    pub fn sink(&self, seat: &mut HeadSeat, cell: usize, to: i64) -> i64
        requires seat { IsSeatOf self.now seat.old }
        requires cell { cell < length self.now.problem.now }
        requires to { IsSink self.now.problem.now (seen_on High seat.old) cell to }
        ensures seat { IsSeatOf self.now seat.new }
        ensures before { result ≤ℤ seen_on High seat.old cell }
        ensures seen { seen_on High seat.new cell ≡ int_min result to }
        ensures others { SameOnBut High cell seat.old seat.new }
        ensures low { SameOn Low seat.old seat.new }
    {
        self.exchange(seat, Side::High, cell, to)
    }

    /// Claims a ticket: the number of earlier claims, until the counter wraps.
    pub fn claim(&self, seat: &mut HeadSeat) -> u64
        requires { IsSeatOf self.now seat.old }
        ensures seat { IsSeatOf self.now seat.new }
        ensures same { seen_of seat.new ≡ seen_of seat.old }
    {
        self.table.shared.fetch_add::<Claim>(&mut seat.seat, 0, 1)
    }
}
