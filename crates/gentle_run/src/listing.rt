// The check of a listing.
ghost use Rattle.std.specs.Prelude.{◌≡◌, ◌<◌, ◌≤◌, IfOk, length, option_map};
ghost use Rattle.model_types.specs.{IsModel};
ghost use Rattle.problem_builder.specs.{AreStartHeads, AreTables};
ghost use Rattle.zone_pairs.specs.{AreZones, pairs_in};
ghost use Rattle.listing_io.specs.{AreListed, step_in};
ghost use Rattle.water_table.specs.{with_yield};
ghost use Rattle.gentle_run.specs.declared.verdict.GentleVerdict.{GentleVerdict};
ghost use Rattle.gentle_run.specs.declared.verdict.GentleVerdict.TheVariants.{Certified};
ghost use Rattle.gentle_run.specs.{AreTablesOfPeriod, IsVerdict, IsVerdictAt, ListingEncloses, heads_before};

use crate::kept::tables_of;
use crate::laws::{certified_is_enclosed, one_verdict};
use crate::step::check_step;
use crate::verdict::GentleVerdict;
use gentle_steps::GentleFault;
use listing_io::{ListedStep, Listing};
use model_types::{FlowModel, TimeStep, times};
use problem_builder::{PeriodTables, Tables, start_heads};
use std::alloc::{AllocError, Global};
use step_problem::Bound;
use water_table::ConvertibleLayers;

// A step of a listing, by its index from 0.
fn step_at(listing: &Listing, index: usize) -> &ListedStep
    requires { index < length listing.now }
    ensures { result.now ≡ step_in listing.now index }
{
    &listing.as_slice()[index]
}

// The heads before a step: the listing's own of the step before, or those of STRT.
fn heads_before<'a>(start: &'a [Bound], listing: &'a Listing, index: usize) -> &'a [Bound]
    requires { index ≤ length listing.now }
    ensures { result.now ≡ heads_before listing.now start.now index }
{
    if index == 0 {
        return start;
    }
    step_at(listing, index - 1).heads.as_slice()
}

// The verdict on a listing from a step's fault at its time.
fn verdict_at(at: TimeStep, fault: GentleFault) -> Result<GentleVerdict, AllocError>
    ensures { IfOk result (IsVerdictAt at fault) }
{
    match fault {
        GentleFault::Steep(cell) => Ok(GentleVerdict::Steep(at, cell)),
        GentleFault::Fails(place) => Ok(GentleVerdict::Fails(at, place)),
        GentleFault::Refused(refusal) => Ok(GentleVerdict::Refused(at, refusal)),
        GentleFault::Memory => Err(AllocError),
    }
}

// Checks a listing step by step. `tables` are those of the run, `first` those of the first stress period, `start` the bounds of STRT.
fn check_steps(
    alloc: Global,
    model: &FlowModel,
    layers: &ConvertibleLayers,
    tables: &Tables,
    first: PeriodTables,
    start: &[Bound],
    zones: Option<&[u32]>,
    listing: &Listing,
) -> Result<GentleVerdict, AllocError>
    requires model { IsModel model.now }
    requires yields { IsModel (with_yield model.now layers.now) }
    requires digits { tables.now.digits ≤ 18 }
    requires tables { AreTables model.now tables.now.digits tables.now }
    requires first { AreTablesOfPeriod model.now tables.now.digits first }
    requires start { AreStartHeads model.now start.now }
    requires zones { AreZones model.now (option_map (λ z. z.now) zones) }
    requires listing { AreListed model.now (pairs_in model.now (option_map (λ z. z.now) zones)) listing.now }
    ensures { IfOk result (IsVerdict model.now layers.now tables.now.digits (option_map (λ z. z.now) zones.entry) listing.now) }
{
    let mut period = first;
    let times = times(alloc, model)?;
    for (index, at) in times.as_slice().iter().enumerate() {
        let old = heads_before(start, listing, index);
        let step = step_at(listing, index);
        period = tables_of(alloc, model, tables, period, at.period)?;
        let heads = step.heads.as_slice();
        let flows = step.zones.as_slice();
        match check_step(
            alloc,
            model,
            layers,
            tables,
            &period,
            *at,
            old,
            zones,
            heads,
            &step.budget,
            flows,
        ) {
            Ok(()) => {}
            Err(fault) => return verdict_at(*at, fault),
        }
    }
    Ok(GentleVerdict::Certified)
}

/// Checks a listing of a model with convertible layers, with s digits of conductances, step by step, each from the listed heads of the one before it, the
/// first from STRT. `zones` has the zone of each cell, if there is a zone file. The first step and place that fails is the verdict, or the first refusal.
pub fn check_listing(
    alloc: Global,
    model: &FlowModel,
    layers: &ConvertibleLayers,
    listing: &Listing,
    s: u32,
    zones: Option<&[u32]>,
) -> Result<GentleVerdict, AllocError>
    requires model { IsModel model.now }
    requires yields { IsModel (with_yield model.now layers.now) }
    requires digits { s ≤ 18 }
    requires zones { AreZones model.now (option_map (λ z. z.now) zones) }
    requires listing { AreListed model.now (pairs_in model.now (option_map (λ z. z.now) zones)) listing.now }
    // The listing's one verdict.
    ensures verdict { IfOk result (IsVerdict model.now layers.now s (option_map (λ z. z.now) zones.entry) listing.now) }
    ensures only { IfOk result (λ v. (other : GentleVerdict) →
        IsVerdict model.now layers.now s (option_map (λ z. z.now) zones.entry) listing.now other → other ≡ v) }
    // Where it is certified, every history of gentle heads that balances each variable cell to less than a unit of flow lies within it.
    ensures encloses { IfOk result (λ v. v ≡ Certified → ListingEncloses s model.now layers.now (option_map (λ z. z.now) zones.entry) listing.now) }
{
    one_verdict();
    certified_is_enclosed();
    let start = start_heads(alloc, model)?;
    let tables = Tables::new(alloc, model, s)?;
    let first = PeriodTables::at(alloc, model, &tables, 1)?;
    check_steps(alloc, model, layers, &tables, first, &start, zones, listing)
}
