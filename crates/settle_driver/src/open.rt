// Whether a cell can still move, and what a settling gives then.
ghost use Rattle.std.specs.Prelude.{◌≡◌, ◌<◌, ℕ, length, MatchOption, true, false};
ghost use Rattle.step_problem.specs.{AreOnTheWay, CanMove, Edges, IsFirstOpen, RoundsSettleBoth, Settles};
ghost use Rattle.cell_relax.specs.{AreWords};
ghost use Rattle.settle_driver.specs.{AreBothSettled, IsFirstSide, had_memory};

use cell_relax::relax_in;
use step_problem::{Bound, Open, Problem, SettleFault, Side};

// The side that can move, the lower one first.
fn first_side(low: bool, high: bool) -> Option<Side>
    ensures { MatchOption result ((low ≡ false) × (high ≡ false)) (IsFirstSide low high) }
{
    if low {
        return Some(Side::Low);
    }
    if high {
        return Some(Side::High);
    }
    None
}

// The side on which a cell can move, the lower one first.
fn open_side(p: &Problem, words: &[Bound], cell: usize) -> Option<Side>
    requires index { cell < length p.now }
    requires words { AreWords p.now words.now }
    ensures { MatchOption result ((s : Side) → CanMove p.now words.now cell s → ⊥)
        (λ s. CanMove p.now words.now cell s × (s ≡ Side.High → CanMove p.now words.now cell Side.Low → ⊥)) }
{
    let low = relax_in(p, words, cell, Side::Low) > words[cell].low;
    let high = relax_in(p, words, cell, Side::High) < words[cell].high;
    first_side(low, high)
}

/// The first cell that can move, by its index, and its side, the lower one first.
pub fn first_open(p: &Problem, words: &[Bound]) -> Option<(u32, Side)>
    requires words { AreWords p.now words.now }
    ensures { MatchOption result (AreBothSettled p.now words.now) (λ o. IsFirstOpen p.now words.now o.0 o.1) }
{
    let cells = p.len();
    for cell in 0..cells {
        if let Some(side) = open_side(p, words, cell) {
            return Some((cell as u32, side));
        }
    }
    None
}

/// These words, or the first cell that can move.
pub(crate) fn words_or_open(
    p: &Problem,
    words: Vec<Bound>,
    first: Option<(u32, Side)>,
) -> Result<Vec<Bound>, SettleFault>
    requires { MatchOption first (AreBothSettled p.now words.items) (λ o. IsFirstOpen p.now words.items o.0 o.1) }
    ensures settles { (b : Edges) (k : ℕ) → AreOnTheWay p.now b words.items →
        (RoundsSettleBoth p.now b k → AreBothSettled p.now words.items) → Settles p.now b k result }
    ensures memory { had_memory result ≡ true }
{
    p.recall_conditions();
    match first {
        None => Ok(words),
        Some((cell, side)) => Err(SettleFault::Unfinished(Open { cell, side, words })),
    }
}
