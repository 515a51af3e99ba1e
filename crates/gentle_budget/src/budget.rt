// The budget of a step.
ghost use Rattle.std.specs.Prelude.{◌≡◌, ◌≤◌, Contains, IfErr, IfOk, Ok};
ghost use Rattle.model_types.specs.{IsModel, times};
ghost use Rattle.problem_builder.specs.{AreGridHeads, AreStepTables, AreTables};
ghost use Rattle.water_table.specs.{with_yield};
ghost use Rattle.gentle_steps.specs.{HeadsHold};
ghost use Rattle.gentle_budget.specs.{IsNoBudget, budget_at};

use crate::join::{joined_budget, stored_term};
use crate::side::side_budget;
use crate::stored::stored_sums;
use budget_bounds::Budget;
use gentle_steps::Posed;
use model_types::{FlowModel, TimeStep};
use problem_builder::{StepTables, Tables};
use std::alloc::Global;
use step_problem::{Bound, BoundFault, Dir, Side};
use water_table::ConvertibleLayers;

/// The budget of a step whose listed heads hold, at these heads and from those before the step, or its first term that is too large. `posed` are the problems
/// of both sides.
pub fn step_budget(
    alloc: Global,
    model: &FlowModel,
    layers: &ConvertibleLayers,
    tables: &Tables,
    step: &StepTables,
    at: TimeStep,
    posed: &Posed,
    old: &[Bound],
    listed: &[Bound],
) -> Result<Budget, BoundFault>
    requires model { IsModel model.now }
    requires yields { IsModel (with_yield model.now layers.now) }
    requires time { Contains (times model.now) at }
    requires digits { tables.now.digits ≤ 18 }
    requires tables { AreTables model.now tables.now.digits tables.now }
    requires step { AreStepTables model.now at step.now }
    requires old { AreGridHeads model.now old.now }
    requires listed { AreGridHeads model.now listed.now }
    requires hold { HeadsHold model.now layers.now tables.now.digits at old.now listed.now posed.now.low posed.now.high }
    ensures budget { IfOk result (λ b. budget_at model.now layers.now tables.now.digits at old.now listed.now posed.now.low posed.now.high ≡ Ok b) }
    ensures refusal { IfErr result (IsNoBudget model.now layers.now tables.now.digits at old.now listed.now posed.now.low posed.now.high) }
{
    let low = side_budget(alloc, &posed.low, listed, Side::Low)?;
    let high = side_budget(alloc, &posed.high, listed, Side::High)?;
    let stored = stored_sums(model, layers, tables, step, at, &posed.low, old, listed);
    let into = match stored_term(Dir::In, stored.into) {
        Ok(into) => into,
        Err(refusal) => return Err(BoundFault::NoBound(refusal)),
    };
    match stored_term(Dir::Out, stored.out) {
        Ok(out) => Ok(joined_budget(&low, &high, into, out)),
        Err(refusal) => Err(BoundFault::NoBound(refusal)),
    }
}
