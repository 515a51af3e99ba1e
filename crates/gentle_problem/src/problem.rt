// The problem of a step.
ghost use Rattle.std.specs.Prelude.{◌≤◌, Contains, IfErr, IfOk};
ghost use Rattle.model_types.specs.{IsModel, times};
ghost use Rattle.problem_builder.specs.{AreEvenStorages, AreGridHeads, ArePeriodTables, AreStepTables, AreTables, IsFaultOver, IsProblemOver};
ghost use Rattle.water_conductances.specs.{AreOrdered};
ghost use Rattle.gentle_problem.specs.{branches_at};

use crate::pairs::pairs_at;
use model_types::{FlowModel, TimeStep};
use problem_builder::{PeriodTables, StepTables, Tables, build_over};
use std::alloc::Global;
use step_problem::{Bound, BoundFault, Problem};
use water_table::ConvertibleLayers;

/// The problem of a time step at all heads within these bounds, one for each cell of the grid, without storage; or its first refusal. The tables are those
/// of the run, of the time's stress period and of the time.
pub fn problem_at(
    alloc: Global,
    model: &FlowModel,
    layers: &ConvertibleLayers,
    tables: &Tables,
    period: &PeriodTables,
    step: &StepTables,
    at: TimeStep,
    heads: &[Bound],
) -> Result<Problem, BoundFault>
    requires model { IsModel model.now }
    requires time { Contains (times model.now) at }
    requires heads { AreGridHeads model.now heads.now }
    requires ordered { AreOrdered model.now heads.now }
    requires digits { tables.now.digits ≤ 18 }
    requires tables { AreTables model.now tables.now.digits tables.now }
    requires period { ArePeriodTables model.now tables.now.digits at.period period.now }
    requires storage { AreEvenStorages model.now tables.now.digits at.period period.now.storage }
    requires step { AreStepTables model.now at step.now }
    ensures problem { IfOk result (IsProblemOver model.now tables.now.digits at heads.now (branches_at model.now layers.now heads.now tables.now.digits)) }
    ensures refusal { IfErr result (IsFaultOver model.now tables.now.digits at heads.now (branches_at model.now layers.now heads.now tables.now.digits)) }
{
    let beds = tables.bed.as_slice();
    let pairs = pairs_at(alloc, model, layers, beds, heads, tables.digits)?;
    build_over(alloc, model, tables, &pairs, period, step, at, heads)
}
