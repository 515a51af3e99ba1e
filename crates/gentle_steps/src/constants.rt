// Whether the listed heads of constant-head cells are as wide as their bounds.
ghost use Rattle.std.specs.Prelude.{◌≡◌, ◌<◌, ◌≤ℤ◌, ℕ, MatchOption};
ghost use Rattle.step_problem.specs.declared.heads.Side.{Side};
ghost use Rattle.step_problem.specs.declared.heads.Side.TheVariants.{High, Low};
ghost use Rattle.model_types.specs.{IsModel, cell_count};
ghost use Rattle.problem_builder.specs.{AreGridHeads, ArePeriodTables, AreStepTables};
ghost use Rattle.gentle_steps.specs.{ConstantsReach, IsFirstShort, IsShort, ReachesAt, ReachesOn};

use crate::table::is_constant;
use model_types::{FlowModel, TimeStep};
use problem_builder::{PeriodTables, StepTables};
use step_problem::{Bound, Side};

// The side on which a listed bound is narrower than the bound of a constant head, the lower one first.
fn short_side(listed: Bound, given: Bound) -> Option<Side>
    ensures { MatchOption result ((side : Side) → ReachesOn side given listed)
        (λ side. (ReachesOn side given listed → ⊥) × (side ≡ High → ReachesOn Low given listed)) }
{
    if listed.low > given.low {
        Some(Side::Low)
    } else if listed.high < given.high {
        Some(Side::High)
    } else {
        None
    }
}

// The same at a cell, if its head is constant.
fn short_at(
    model: &FlowModel,
    period: &PeriodTables,
    step: &StepTables,
    at: TimeStep,
    listed: &[Bound],
    cell: u32,
) -> Option<Side>
    requires period { (s : ℕ) × ArePeriodTables model.now s at.period period.now }
    requires step { AreStepTables model.now at step.now }
    requires listed { AreGridHeads model.now listed.now }
    requires cell { cell < cell_count model.now.grid }
    ensures { MatchOption result ((side : Side) → ReachesAt model.now at listed.now cell side) (IsShort model.now at listed.now cell) }
{
    if is_constant(model, period, at, cell) {
        short_side(listed[cell as usize], step.heads.as_slice()[cell as usize])
    } else {
        None
    }
}

/// The first constant-head cell whose listed bound is narrower than that of its head, by its number, and the side.
pub(crate) fn first_short(
    model: &FlowModel,
    period: &PeriodTables,
    step: &StepTables,
    at: TimeStep,
    listed: &[Bound],
) -> Option<(u32, Side)>
    requires model { IsModel model.now }
    requires period { (s : ℕ) × ArePeriodTables model.now s at.period period.now }
    requires step { AreStepTables model.now at step.now }
    requires listed { AreGridHeads model.now listed.now }
    ensures { MatchOption result (ConstantsReach model.now at listed.now) (λ f. IsFirstShort model.now at listed.now f.0 f.1) }
{
    for cell in 0..model.grid.cell_count() {
        if let Some(side) = short_at(model, period, step, at, listed, cell) {
            return Some((cell, side));
        }
    }
    None
}
