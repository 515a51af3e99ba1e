// Whether the listed heads of constant cells are as wide as their pairs.
ghost use Rattle.std.specs.Prelude.{◌≡◌, ◌<◌, ℕ, length, Contains, MatchOption};
ghost use Rattle.step_problem.specs.declared.heads.Side.{Side};
ghost use Rattle.step_problem.specs.declared.heads.Side.TheVariants.{Low};
ghost use Rattle.model_types.specs.declared.given_heads.Kind.TheVariants.{Constant};
ghost use Rattle.model_types.specs.{cell_count, times};
ghost use Rattle.deck_problems.specs.{AreConstantHeadsFor, AreDecks};
ghost use Rattle.problem_builder.specs.{ArePeriodTables};
ghost use Rattle.check_run.specs.{ConstantsReach, IsFirstShort, ReachesOn};

use deck_problems::Decks;
use deck_problems::laws::constant_pairs;
use model_types::{Kind, TimeStep};
use problem_builder::PeriodTables;
use step_problem::{Bound, Side};

/// The side on which the listed bound of a cell of this kind is narrower than the pair of its constant head, the lower
/// one first.
pub fn unreached_side(kind: Kind, listed: Bound, pair: Bound) -> Option<Side>
    ensures { MatchOption result
        (kind ≡ Constant → (side : Side) → ReachesOn side listed pair)
        (λ side. (kind ≡ Constant) × (ReachesOn side listed pair → ⊥) × (side ≡ Side.High → ReachesOn Low listed pair)) }
{
    match kind {
        Kind::Constant => {
            if listed.low > pair.low {
                Some(Side::Low)
            } else if listed.high < pair.high {
                Some(Side::High)
            } else {
                None
            }
        }
        Kind::NoFlow => None,
        Kind::Variable => None,
    }
}

/// The first cell with a constant head whose listed bound is narrower than its pair, by its number, and its side;
/// `constant_heads` are the constant heads of the time, and `heads` the listed heads of all cells.
pub(crate) fn first_unreached(
    decks: &Decks,
    period: &PeriodTables,
    at: TimeStep,
    constant_heads: &[Bound],
    heads: &[Bound],
) -> Option<(u32, Side)>
    requires decks { AreDecks decks.now }
    requires time { Contains (times decks.now.first) at }
    requires period { (s : ℕ) × ArePeriodTables decks.now.first s at.period period.now }
    requires constant { AreConstantHeadsFor decks.now at constant_heads.now }
    requires whole { length heads.now ≡ cell_count decks.now.first.grid }
    ensures { MatchOption result
        (ConstantsReach decks.now at heads.now)
        (λ f. IsFirstShort decks.now at heads.now f.0 f.1) }
{
    let _at = at;
    constant_pairs();
    let count = decks.first.grid.cell_count();
    for cell in 0..count {
        let place = cell as usize;
        if let Some(side) = unreached_side(
            period.kind_at(cell),
            heads[place],
            constant_heads[place],
        ) {
            return Some((cell, side));
        }
    }
    None
}
