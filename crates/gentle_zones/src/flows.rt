// The flows between zones at a step.
ghost use Rattle.std.specs.Prelude.{◌≡◌, ◌≤◌, Contains, IfErr, IfOk, Ok, map, option_map};
ghost use Rattle.model_types.specs.{IsModel, times};
ghost use Rattle.problem_builder.specs.{AreEvenStorages, AreGridHeads, ArePeriodTables, AreStepTables, AreTables};
ghost use Rattle.zone_pairs.specs.{AreZones, pairs_in, zones_of_flow};
ghost use Rattle.water_conductances.specs.{AreOrdered};
ghost use Rattle.gentle_zones.specs.{HasNoFlows, flows_at};

use gentle_problem::problem_at;
use listing_run::flows_of;
use model_types::{FlowModel, TimeStep};
use problem_builder::{PeriodTables, StepTables, Tables};
use std::alloc::Global;
use step_problem::{Bound, BoundFault, ZoneFlow};
use water_table::ConvertibleLayers;

/// The flows between the zones of a zone file, at all heads between the listed ones, or the first refusal. There are none without a zone file. The tables
/// are those of the run, of the time's stress period and of the time.
pub fn step_flows(
    alloc: Global,
    model: &FlowModel,
    layers: &ConvertibleLayers,
    tables: &Tables,
    period: &PeriodTables,
    step: &StepTables,
    at: TimeStep,
    zones: Option<&[u32]>,
    listed: &[Bound],
) -> Result<Vec<ZoneFlow>, BoundFault>
    requires model { IsModel model.now }
    requires time { Contains (times model.now) at }
    requires digits { tables.now.digits ≤ 18 }
    requires tables { AreTables model.now tables.now.digits tables.now }
    requires period { ArePeriodTables model.now tables.now.digits at.period period.now }
    requires storage { AreEvenStorages model.now tables.now.digits at.period period.now.storage }
    requires step { AreStepTables model.now at step.now }
    requires zones { AreZones model.now (option_map (λ z. z.now) zones) }
    requires listed { AreGridHeads model.now listed.now }
    requires ordered { AreOrdered model.now listed.now }
    ensures flows { IfOk result (λ v. flows_at model.now layers.now tables.now.digits at listed.now (option_map (λ z. z.now) zones.entry) ≡ Ok v.items) }
    // One flow for each pair of zones that share a face.
    ensures pairs { IfOk result (λ v. map zones_of_flow v.items ≡ pairs_in model.now (option_map (λ z. z.now) zones.entry) at.period) }
    ensures fault { IfErr result (HasNoFlows model.now layers.now tables.now.digits at listed.now (option_map (λ z. z.now) zones.entry)) }
{
    let Some(zones) = zones else {
        return Ok(Vec::new(alloc));
    };
    let problem = problem_at(alloc, model, layers, tables, period, step, at, listed)?;
    flows_of(alloc, model, Some(zones), &problem, listed)
}
