// The heads of one side of a listed step, as bounds of all cells.
ghost use Rattle.std.specs.Prelude.{◌≡◌, ◌<◌, ℕ, IfOk};
ghost use Rattle.cell_relax.specs.{head_of};
ghost use Rattle.model_types.specs.{cell_count, IsModel};
ghost use Rattle.problem_builder.specs.{AreGridHeads, ArePeriodTables, AreStepTables};
ghost use Rattle.gentle_check.specs.{one_head as one_head_of};
ghost use Rattle.gentle_steps.specs.{AreSideBounds, side_bound};

use crate::table::is_variable;
use cell_relax::head_on;
use model_types::{FlowModel, TimeStep};
use problem_builder::{PeriodTables, StepTables};
use std::alloc::{AllocError, Global};
use step_problem::{Bound, Side};

/// One head as a bound.
pub fn one_head(head: i64) -> Bound
    ensures { result ≡ one_head_of head }
{
    Bound {
        low: head,
        high: head,
    }
}

fn side_bound(
    model: &FlowModel,
    period: &PeriodTables,
    step: &StepTables,
    at: TimeStep,
    listed: &[Bound],
    side: Side,
    cell: u32,
) -> Bound
    requires period { (s : ℕ) × ArePeriodTables model.now s at.period period.now }
    requires step { AreStepTables model.now at step.now }
    requires listed { AreGridHeads model.now listed.now }
    requires cell { cell < cell_count model.now.grid }
    ensures { result ≡ side_bound model.now at listed.now side cell }
{
    if is_variable(model, period, at, cell) {
        one_head(head_on(side, listed[cell as usize]))
    } else {
        step.heads.as_slice()[cell as usize]
    }
}

/// For each cell the head of the side, or the bounds of its constant head.
pub(crate) fn side_bounds(
    alloc: Global,
    model: &FlowModel,
    period: &PeriodTables,
    step: &StepTables,
    at: TimeStep,
    listed: &[Bound],
    side: Side,
) -> Result<Vec<Bound>, AllocError>
    requires model { IsModel model.now }
    requires period { (s : ℕ) × ArePeriodTables model.now s at.period period.now }
    requires step { AreStepTables model.now at step.now }
    requires listed { AreGridHeads model.now listed.now }
    ensures { IfOk result (λ v. AreSideBounds model.now at listed.now side v.items) }
{
    let mut bounds = Vec::new(alloc);
    let count = model.grid.cell_count();
    for cell in 0..count {
        bounds.push(side_bound(model, period, step, at, listed, side, cell))?;
    }
    Ok(bounds)
}
