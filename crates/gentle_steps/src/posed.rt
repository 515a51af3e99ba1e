// The problems of both sides of a step.
ghost use Rattle.std.specs.Prelude.{◌≤◌, ◌≡◌, Contains, IfErr, IfOk};
ghost use Rattle.step_problem.specs.declared.heads.Side.TheVariants.{Low};
ghost use Rattle.step_problem.specs.declared.place.Place.TheVariants.{Cell};
ghost use Rattle.step_problem.specs.declared.refusal.StepRefusal.TheVariants.{ConductanceTooLarge};
ghost use Rattle.step_problem.specs.{number_of};
ghost use Rattle.model_types.specs.{IsModel, times};
ghost use Rattle.problem_builder.specs.{AreEvenStorages, AreGridHeads, ArePeriodTables, AreStepTables, AreTables};
ghost use Rattle.water_table.specs.{with_yield};
ghost use Rattle.gentle_steps.specs.{ArePosed, HasNoSideProblem, IsSideProblem, IsUnposed};

use crate::fault::GentleFault;
use crate::sides::side_bounds;
use crate::storage::first_large;
use gentle_problem::problem_at;
use model_types::{FlowModel, TimeStep};
use problem_builder::{PeriodTables, StepTables, Tables};
use std::alloc::Global;
use step_problem::{Bound, BoundFault, NoBound, Place, Problem, Side, StepRefusal};
use water_table::ConvertibleLayers;

/// The problem of the lower heads of a step, and that of the upper ones.
#[derive(Drop)]
pub struct Posed {
    pub low: Problem,
    pub high: Problem,
}

// The problem of a side.
fn side_problem(
    alloc: Global,
    model: &FlowModel,
    layers: &ConvertibleLayers,
    tables: &Tables,
    period: &PeriodTables,
    step: &StepTables,
    at: TimeStep,
    listed: &[Bound],
    side: Side,
) -> Result<Problem, BoundFault>
    requires model { IsModel model.now }
    requires time { Contains (times model.now) at }
    requires digits { tables.now.digits ≤ 18 }
    requires tables { AreTables model.now tables.now.digits tables.now }
    requires period { ArePeriodTables model.now tables.now.digits at.period period.now }
    requires storage { AreEvenStorages model.now tables.now.digits at.period period.now.storage }
    requires step { AreStepTables model.now at step.now }
    requires listed { AreGridHeads model.now listed.now }
    ensures problem { IfOk result (IsSideProblem model.now layers.now tables.now.digits at listed.now side) }
    ensures refusal { IfErr result (HasNoSideProblem model.now layers.now tables.now.digits at listed.now side) }
{
    let bounds = side_bounds(alloc, model, period, step, at, listed, side)?;
    problem_at(
        alloc,
        model,
        layers,
        tables,
        period,
        step,
        at,
        bounds.as_slice(),
    )
}

// The refusal of a cell with a pair of stored water that is too large.
fn too_large(cell: u32) -> NoBound
    ensures { result ≡ record { code = number_of ConductanceTooLarge; place = Cell cell Low } }
{
    NoBound {
        code: StepRefusal::ConductanceTooLarge.number(),
        place: Place::Cell(cell, Side::Low),
    }
}

/// The problems of both sides, or the first refusal of the step.
pub(crate) fn pose(
    alloc: Global,
    model: &FlowModel,
    layers: &ConvertibleLayers,
    tables: &Tables,
    period: &PeriodTables,
    step: &StepTables,
    at: TimeStep,
    listed: &[Bound],
) -> Result<Posed, GentleFault>
    requires model { IsModel model.now }
    requires yields { IsModel (with_yield model.now layers.now) }
    requires time { Contains (times model.now) at }
    requires digits { tables.now.digits ≤ 18 }
    requires tables { AreTables model.now tables.now.digits tables.now }
    requires period { ArePeriodTables model.now tables.now.digits at.period period.now }
    requires storage { AreEvenStorages model.now tables.now.digits at.period period.now.storage }
    requires step { AreStepTables model.now at step.now }
    requires listed { AreGridHeads model.now listed.now }
    ensures posed { IfOk result (ArePosed model.now layers.now tables.now.digits at listed.now) }
    ensures fault { IfErr result (IsUnposed model.now layers.now tables.now.digits at listed.now) }
{
    let low = side_problem(
        alloc,
        model,
        layers,
        tables,
        period,
        step,
        at,
        listed,
        Side::Low,
    )?;
    let high = side_problem(
        alloc,
        model,
        layers,
        tables,
        period,
        step,
        at,
        listed,
        Side::High,
    )?;
    if let Some(cell) = first_large(model, layers, tables, period, step, at) {
        return Err(GentleFault::Refused(too_large(cell)));
    }
    Ok(Posed { low, high })
}
