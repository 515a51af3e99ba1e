// The problem of a step, cell by cell.
ghost use Rattle.std.specs.Prelude.{◌≤◌, Contains, IfOk, IfErr};
ghost use Rattle.model_types.specs.{cell_count, times, IsModel};
ghost use Rattle.problem_builder.specs.{AreBranches, AreCellsOver, AreGridHeads, AreInputs, HasPairs, IsBuildFault, IsBuilt, IsCellFault, IsCheckedCell};
ghost use Rattle.problem_builder.specs.{IsFaultOver, IsProblemOver, IsVariableCell, branches_of, branches_over, cell_over, AreTables, ArePeriodTables};
ghost use Rattle.problem_builder.specs.{AreStepTables, AreEvenStorages};

use crate::cell::cell;
use crate::fault::fault;
use crate::index::PeriodTables;
use crate::input::StepInput;
use crate::step::StepTables;
use crate::tables::{FacePairs, Tables};
use model_types::{FlowModel, TimeStep};
use std::alloc::Global;
use step_problem::{Bound, BoundFault, Cell, NoBound, Place, Problem, Side};

// A variable cell, or its first refusal.
fn checked_cell(alloc: Global, input: &StepInput, number: u32) -> Result<Cell, BoundFault>
    requires input { AreInputs input.now }
    requires cell { IsVariableCell input.now number }
    ensures cell { IfOk result (IsCheckedCell input.now number) }
    ensures fault { IfErr result (IsCellFault (cell_over input.now.model input.now.tables.digits input.now.at input.now.old (branches_of input.now) number)) }
{
    let made = cell(alloc, input, number)?;
    match fault(&made) {
        None => Ok(made),
        Some(code) => Err(BoundFault::NoBound(NoBound {
            code,
            place: Place::Cell(number, Side::Low),
        })),
    }
}

// All variable cells, or the first refusal.
pub(crate) fn cells(alloc: Global, input: &StepInput) -> Result<Vec<Cell>, BoundFault>
    requires { AreInputs input.now }
    ensures cells { IfOk result (λ v. AreCellsOver input.now.model input.now.tables.digits input.now.at input.now.old (branches_of input.now)
        (cell_count input.now.model.grid) v.items) }
    ensures fault { IfErr result (IsFaultOver input.now.model input.now.tables.digits input.now.at input.now.old (branches_of input.now)) }
{
    let mut cells = Vec::new(alloc);
    let count = input.model.grid.cell_count();
    for number in 0..count {
        if input.is_variable(number) {
            let made = checked_cell(alloc, input, number)?;
            cells.push(made)?;
        }
    }
    Ok(cells)
}

// The problem of these inputs.
fn problem_of(alloc: Global, input: &StepInput) -> Result<Problem, BoundFault>
    requires { AreInputs input.now }
    ensures problem { IfOk result (IsProblemOver input.now.model input.now.tables.digits input.now.at input.now.old (branches_of input.now)) }
    ensures refusal { IfErr result (IsFaultOver input.now.model input.now.tables.digits input.now.at input.now.old (branches_of input.now)) }
{
    let cells = cells(alloc, input)?;
    Ok(Problem::new(cells))
}

/// The problem of a time step from the heads before it, one bound for each cell of the grid, or its first refusal.
/// The tables are those of the run, of the time's stress period and of the time.
pub fn build_with(
    alloc: Global,
    model: &FlowModel,
    tables: &Tables,
    period: &PeriodTables,
    step: &StepTables,
    at: TimeStep,
    old: &[Bound],
) -> Result<Problem, BoundFault>
    requires model { IsModel model.now }
    requires time { Contains (times model.now) at }
    requires old { AreGridHeads model.now old.now }
    requires digits { tables.now.digits ≤ 18 }
    requires tables { AreTables model.now tables.now.digits tables.now }
    requires period { ArePeriodTables model.now tables.now.digits at.period period.now }
    requires storage { AreEvenStorages model.now tables.now.digits at.period period.now.storage }
    requires step { AreStepTables model.now at step.now }
    ensures built { IfOk result (IsBuilt model.now tables.now.digits at old.now) }
    ensures refusal { IfErr result (IsBuildFault model.now tables.now.digits at old.now) }
{
    let input = StepInput {
        model,
        tables,
        pairs: &tables.pairs,
        stored: true,
        period,
        step,
        at,
        old,
    };
    problem_of(alloc, &input)
}

/// The problem of a time step over these conductances of its faces, without storage, or its first refusal. The tables
/// are those of the run, of the time's stress period and of the time; the heads have one bound for each cell.
pub fn build_over(
    alloc: Global,
    model: &FlowModel,
    tables: &Tables,
    pairs: &FacePairs,
    period: &PeriodTables,
    step: &StepTables,
    at: TimeStep,
    heads: &[Bound],
) -> Result<Problem, BoundFault>
    requires model { IsModel model.now }
    requires time { Contains (times model.now) at }
    requires heads { AreGridHeads model.now heads.now }
    requires digits { tables.now.digits ≤ 18 }
    requires tables { AreTables model.now tables.now.digits tables.now }
    requires pairs { HasPairs model.now.grid pairs.now }
    requires branches { AreBranches model.now at (branches_over pairs.now) }
    requires period { ArePeriodTables model.now tables.now.digits at.period period.now }
    requires storage { AreEvenStorages model.now tables.now.digits at.period period.now.storage }
    requires step { AreStepTables model.now at step.now }
    ensures problem { IfOk result (IsProblemOver model.now tables.now.digits at heads.now (branches_over pairs.now)) }
    ensures refusal { IfErr result (IsFaultOver model.now tables.now.digits at heads.now (branches_over pairs.now)) }
{
    let input = StepInput {
        model,
        tables,
        pairs,
        stored: false,
        period,
        step,
        at,
        old: heads,
    };
    problem_of(alloc, &input)
}

/// The problem of a time step with s digits from the heads before it, one bound for each cell of the grid, or its
/// first refusal. It makes all tables anew; `build_with` takes tables that are kept for a run.
pub fn build(
    alloc: Global,
    model: &FlowModel,
    at: TimeStep,
    old: &[Bound],
    s: u32,
) -> Result<Problem, BoundFault>
    requires model { IsModel model.now }
    requires time { Contains (times model.now) at }
    requires old { AreGridHeads model.now old.now }
    requires digits { s ≤ 18 }
    ensures built { IfOk result (IsBuilt model.now s at old.now) }
    ensures refusal { IfErr result (IsBuildFault model.now s at old.now) }
{
    let tables = Tables::new(alloc, model, s)?;
    let period = PeriodTables::at(alloc, model, &tables, at.period)?;
    let step = StepTables::new(alloc, model, &period, at)?;
    build_with(alloc, model, &tables, &period, &step, at, old)
}
