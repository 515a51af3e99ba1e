// The test of the listed heads of a step.
ghost use Rattle.std.specs.Prelude.{◌≡◌, ◌<◌, ◌≤◌, ◌≤ℤ◌, ◌↔◌, ℕ, Contains, IfErr, IfOk, IsTrue, MatchOption, length, map};
ghost use Rattle.step_problem.specs.{entries_at};
ghost use Rattle.model_types.specs.{IsModel, times};
ghost use Rattle.problem_builder.specs.{AreEvenStorages, AreGridHeads, ArePeriodTables, AreStepTables, AreTables, bound_at};
ghost use Rattle.water_conductances.specs.{AreOrdered};
ghost use Rattle.water_table.specs.{with_yield};
ghost use Rattle.gentle_steps.specs.{FailsBy, HeadsHold, IsFirstCrossed, IsGentlyListed, IsSteep};

use crate::constants::first_short;
use crate::fault::GentleFault;
use crate::posed::{Posed, pose};
use crate::signs::first_weak;
use gentle_heads::first_steep;
use model_types::{FlowModel, TimeStep};
use problem_builder::{PeriodTables, StepTables, Tables};
use std::alloc::{AllocError, Global};
use step_problem::{Bound, Place, Problem};
use water_table::ConvertibleLayers;

fn is_ordered(bound: Bound) -> bool
    ensures { IsTrue result ↔ bound.low ≤ℤ bound.high }
{
    bound.low <= bound.high
}

// The first cell whose lower head is above its upper one.
fn first_crossed(model: &FlowModel, listed: &[Bound]) -> Option<u32>
    requires model { IsModel model.now }
    requires listed { AreGridHeads model.now listed.now }
    ensures { MatchOption result (AreOrdered model.now listed.now) (IsFirstCrossed model.now listed.now) }
{
    for cell in 0..model.grid.cell_count() {
        if !is_ordered(listed[cell as usize]) {
            return Some(cell);
        }
    }
    None
}

// The first cell at which the listed heads aren't in order or not all heads between are gentle.
fn first_rough(
    model: &FlowModel,
    layers: &ConvertibleLayers,
    period: &PeriodTables,
    at: TimeStep,
    listed: &[Bound],
) -> Option<u32>
    requires model { IsModel model.now }
    requires period { (s : ℕ) × ArePeriodTables model.now s at.period period.now }
    requires listed { AreGridHeads model.now listed.now }
    ensures { MatchOption result (IsGentlyListed model.now layers.now at listed.now) (IsSteep model.now layers.now at listed.now) }
{
    let _at = at;
    if let Some(cell) = first_crossed(model, listed) {
        return Some(cell);
    }
    first_steep(model, layers, period, listed)
}

/// The listed bounds of a problem's cells.
fn bounds_of(alloc: Global, problem: &Problem, listed: &[Bound]) -> Result<Vec<Bound>, AllocError>
    requires { (k : ℕ) → k < length problem.now → (entries_at problem.now k).id < length listed.now }
    ensures { IfOk result (λ v. v.items ≡ map (λ e. bound_at listed.now e.id) problem.now) }
{
    let mut bounds = Vec::new(alloc);
    for k in 0..problem.len() {
        bounds.push(listed[problem.cell(k).id as usize])?;
    }
    Ok(bounds)
}

/// Tests the listed heads of all cells at a time, from those before it. The tables are those of the run, of the time's stress period and of the time. Where
/// the heads hold, it returns the problems of both sides.
pub fn test_heads(
    alloc: Global,
    model: &FlowModel,
    layers: &ConvertibleLayers,
    tables: &Tables,
    period: &PeriodTables,
    step: &StepTables,
    at: TimeStep,
    old: &[Bound],
    listed: &[Bound],
) -> Result<Posed, GentleFault>
    requires model { IsModel model.now }
    requires yields { IsModel (with_yield model.now layers.now) }
    requires time { Contains (times model.now) at }
    requires digits { tables.now.digits ≤ 18 }
    requires tables { AreTables model.now tables.now.digits tables.now }
    requires period { ArePeriodTables model.now tables.now.digits at.period period.now }
    requires storage { AreEvenStorages model.now tables.now.digits at.period period.now.storage }
    requires step { AreStepTables model.now at step.now }
    requires old { AreGridHeads model.now old.now }
    requires listed { AreGridHeads model.now listed.now }
    ensures holds { IfOk result (λ x. HeadsHold model.now layers.now tables.now.digits at old.now listed.now x.low x.high) }
    ensures fails { IfErr result (FailsBy model.now layers.now tables.now.digits at old.now listed.now) }
{
    if let Some(cell) = first_rough(model, layers, period, at, listed) {
        return Err(GentleFault::Steep(cell));
    }
    let posed = pose(alloc, model, layers, tables, period, step, at, listed)?;
    if let Some((cell, side)) = first_short(model, period, step, at, listed) {
        return Err(GentleFault::Fails(Place::Cell(cell, side)));
    }
    let bounds = bounds_of(alloc, &posed.low, listed)?;
    if let Some((index, side)) = first_weak(
        model,
        layers,
        tables,
        step,
        at,
        &posed,
        bounds.as_slice(),
        old,
        listed,
    ) {
        let cell = posed.low.cell(index).id;
        return Err(GentleFault::Fails(Place::Cell(cell, side)));
    }
    Ok(posed)
}
