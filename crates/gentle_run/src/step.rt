// The check of one listed step.
ghost use Rattle.std.specs.Prelude.{◌≡◌, ◌≤◌, Contains, IfErr, IfOk, option_map};
ghost use Rattle.model_types.specs.{IsModel, times};
ghost use Rattle.problem_builder.specs.{AreEvenStorages, AreGridHeads, ArePeriodTables, AreStepTables, AreTables};
ghost use Rattle.zone_pairs.specs.{AreZones, pairs_in};
ghost use Rattle.listing_io.specs.{AreFlows};
ghost use Rattle.water_conductances.specs.{AreOrdered};
ghost use Rattle.water_table.specs.{with_yield};
ghost use Rattle.gentle_steps.specs.{HeadsHold};
ghost use Rattle.gentle_run.specs.{AreNarrow, AreWide, IsCovered, IsUncovered, Passes, StepFailsBy};

use budget_bounds::{Budget, first_uncovered};
use check_run::first_narrow;
use gentle_budget::step_budget;
use gentle_steps::{GentleFault, Posed, test_heads};
use gentle_zones::step_flows;
use model_types::{FlowModel, TimeStep};
use problem_builder::{PeriodTables, StepTables, Tables};
use std::alloc::Global;
use step_problem::{Bound, Place, ZoneFlow};
use water_table::ConvertibleLayers;

// Tests listed terms against the budget of listed heads that hold.
fn test_terms(
    alloc: Global,
    model: &FlowModel,
    layers: &ConvertibleLayers,
    tables: &Tables,
    step: &StepTables,
    at: TimeStep,
    posed: &Posed,
    old: &[Bound],
    heads: &[Bound],
    listed: &Budget,
) -> Result<(), GentleFault>
    requires model { IsModel model.now }
    requires yields { IsModel (with_yield model.now layers.now) }
    requires time { Contains (times model.now) at }
    requires digits { tables.now.digits ≤ 18 }
    requires tables { AreTables model.now tables.now.digits tables.now }
    requires step { AreStepTables model.now at step.now }
    requires old { AreGridHeads model.now old.now }
    requires heads { AreGridHeads model.now heads.now }
    requires hold { HeadsHold model.now layers.now tables.now.digits at old.now heads.now posed.now.low posed.now.high }
    ensures covers { IfOk result (λ _. IsCovered model.now layers.now tables.now.digits at old.now heads.now listed.now posed.now.low posed.now.high) }
    ensures fails { IfErr result (IsUncovered model.now layers.now tables.now.digits at old.now heads.now listed.now posed.now.low posed.now.high) }
{
    let computed = step_budget(alloc, model, layers, tables, step, at, posed, old, heads)?;
    match first_uncovered(listed, &computed) {
        None => Ok(()),
        Some((dir, term)) => Err(GentleFault::Fails(Place::Term(dir, term))),
    }
}

// Tests listed flows between the zones of a zone file.
fn test_flows(
    alloc: Global,
    model: &FlowModel,
    layers: &ConvertibleLayers,
    tables: &Tables,
    period: &PeriodTables,
    step: &StepTables,
    at: TimeStep,
    zones: Option<&[u32]>,
    heads: &[Bound],
    listed: &[ZoneFlow],
) -> Result<(), GentleFault>
    requires model { IsModel model.now }
    requires time { Contains (times model.now) at }
    requires digits { tables.now.digits ≤ 18 }
    requires tables { AreTables model.now tables.now.digits tables.now }
    requires period { ArePeriodTables model.now tables.now.digits at.period period.now }
    requires storage { AreEvenStorages model.now tables.now.digits at.period period.now.storage }
    requires step { AreStepTables model.now at step.now }
    requires zones { AreZones model.now (option_map (λ z. z.now) zones) }
    requires heads { AreGridHeads model.now heads.now }
    requires ordered { AreOrdered model.now heads.now }
    requires listed { AreFlows (pairs_in model.now (option_map (λ z. z.now) zones) at.period) listed.now }
    ensures wide { IfOk result (λ _. AreWide model.now layers.now tables.now.digits (option_map (λ z. z.now) zones.entry) at heads.now listed.now) }
    ensures fails { IfErr result (AreNarrow model.now layers.now tables.now.digits (option_map (λ z. z.now) zones.entry) at heads.now listed.now) }
{
    let computed = step_flows(alloc, model, layers, tables, period, step, at, zones, heads)?;
    match first_narrow(listed, computed.as_slice()) {
        None => Ok(()),
        Some((from, to)) => Err(GentleFault::Fails(Place::Zone(from, to))),
    }
}

/// Checks the listed heads, budget and flows between zones of a time from the heads of all cells before it. The tables are those of the run and of the time's
/// stress period.
pub(crate) fn check_step(
    alloc: Global,
    model: &FlowModel,
    layers: &ConvertibleLayers,
    tables: &Tables,
    period: &PeriodTables,
    at: TimeStep,
    old: &[Bound],
    zones: Option<&[u32]>,
    heads: &[Bound],
    listed: &Budget,
    flows: &[ZoneFlow],
) -> Result<(), GentleFault>
    requires model { IsModel model.now }
    requires yields { IsModel (with_yield model.now layers.now) }
    requires time { Contains (times model.now) at }
    requires digits { tables.now.digits ≤ 18 }
    requires tables { AreTables model.now tables.now.digits tables.now }
    requires period { ArePeriodTables model.now tables.now.digits at.period period.now }
    requires storage { AreEvenStorages model.now tables.now.digits at.period period.now.storage }
    requires old { AreGridHeads model.now old.now }
    requires zones { AreZones model.now (option_map (λ z. z.now) zones) }
    requires heads { AreGridHeads model.now heads.now }
    requires flows { AreFlows (pairs_in model.now (option_map (λ z. z.now) zones) at.period) flows.now }
    ensures passes { IfOk result (λ _. Passes model.now layers.now tables.now.digits (option_map (λ z. z.now) zones.entry) at old.now
        (record { heads = heads.now; budget = listed.now; zones = flows.now })) }
    ensures fails { IfErr result (StepFailsBy model.now layers.now tables.now.digits (option_map (λ z. z.now) zones.entry) at old.now
        (record { heads = heads.now; budget = listed.now; zones = flows.now })) }
{
    let step = StepTables::new(alloc, model, period, at)?;
    let posed = test_heads(alloc, model, layers, tables, period, &step, at, old, heads)?;
    test_terms(
        alloc, model, layers, tables, &step, at, &posed, old, heads, listed,
    )?;
    test_flows(
        alloc, model, layers, tables, period, &step, at, zones, heads, flows,
    )
}
