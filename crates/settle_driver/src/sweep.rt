// Plain sweeps over the words of a problem.
ghost use Rattle.std.specs.Prelude.{◌≡◌, ◌<◌, ℕ, length, slice_index_or, false, true};
ghost use Rattle.step_problem.specs.{no_bound};
ghost use Rattle.cell_relax.specs.{AreWords};
ghost use Rattle.settle_driver.specs.{IsRelaxedCell, IsPastCell, StayOnTheWay, AreBothSettled, SettleWithin};

use cell_relax::relax_in;
use step_problem::{Bound, Problem, Side};

// Moves the two heads of a cell to its raise and its sink value, and returns whether one moved.
pub(crate) fn relax_cell(p: &Problem, words: &mut [Bound], cell: usize) -> bool
    requires index { cell < length p.now }
    requires words { AreWords p.now words.old }
    ensures relaxed { IsRelaxedCell p.now words.old words.new cell }
    ensures others { (d : ℕ) → (d ≡ cell → ⊥) → slice_index_or words.new d no_bound ≡ slice_index_or words.old d no_bound }
    ensures still { result ≡ false → words.new ≡ words.old }
{
    let word = Bound {
        low: relax_in(p, words, cell, Side::Low),
        high: relax_in(p, words, cell, Side::High),
    };
    let moved = word != words[cell];
    words[cell] = word;
    moved
}

// Relaxes each cell once, in ascending order, and returns whether a head moved.
fn sweep(p: &Problem, words: &mut [Bound]) -> bool
    requires words { AreWords p.now words.old }
    ensures words { AreWords p.now words.new }
    ensures way { StayOnTheWay p.now words.old words.new }
    ensures past { (c : ℕ) → c < length p.now → IsPastCell p.now words.old words.new c }
    ensures still { result ≡ false → AreBothSettled p.now words.new }
{
    let mut moved = false;
    for cell in 0..p.len() {
        moved |= relax_cell(p, words, cell);
    }
    moved
}

/// Sweeps at most `rounds` times, until a sweep moves nothing, and returns whether one did.
pub fn sweep_up_to(p: &Problem, words: &mut [Bound], rounds: u32) -> bool
    requires words { AreWords p.now words.old }
    ensures settled { result ≡ true → AreBothSettled p.now words.new }
    ensures words { AreWords p.now words.new }
    ensures way { StayOnTheWay p.now words.old words.new }
    ensures reached { SettleWithin p.now rounds words.old words.new }
{
    p.recall_conditions();
    for _round in 0..rounds {
        if !sweep(p, words) {
            return true;
        }
    }
    false
}
