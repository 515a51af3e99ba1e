// Whether the listed flows of a step are as wide as those at the listed differences.
ghost use Rattle.std.specs.Prelude.{◌≡◌, ℕ, Ok, IfErr, IfOk, MatchOption, map};
ghost use Rattle.std.specs.List.{AllZip};
ghost use Rattle.step_problem.specs.declared.place.Dir.{Dir};
ghost use Rattle.budget_bounds.specs.{Covers, IsFirstUncovered};
ghost use Rattle.check_run.specs.{CoversFlow, IsFirstNarrow};
ghost use Rattle.zone_pairs.specs.{zones_of_flow};
ghost use Rattle.plan_sources.specs.{HasFlows, flows_of};
ghost use Rattle.plan_chain.specs.{IsPlanTask};
ghost use Rattle.plan_sources.specs.declared.flows.PlanFlows.{PlanFlows as Flows};
ghost use Rattle.plan_listing.specs.declared.last_lines.PlanPlace.TheVariants.{Zone};
ghost use Rattle.plan_check.specs.declared.fault.PlanCheckFault.TheVariants.{Fails};
ghost use Rattle.plan_check.specs.{AreWide, FlowsFailBy, as_budget};

use crate::fault::PlanCheckFault;
use budget_bounds::{Budget, first_uncovered};
use check_run::first_narrow;
use listing_run::zone_slice;
use plan_chain::{PlanSolved, PlanTask};
use plan_listing::PlanPlace;
use plan_sources::{PlanFlows, Sources, plan_flows};
use std::alloc::Global;
use step_problem::{Term, ZoneFlow};

// The sources of a step as a budget, on both sides.
fn as_budget(sources: &Sources) -> Budget
    ensures { result ≡ as_budget sources.now }
{
    Budget {
        into: sources.terms,
        out: sources.terms,
    }
}

// The first term whose listed source isn't as wide as the computed one.
fn narrow_source(listed: &Sources, computed: &Sources) -> Option<Term>
    ensures { MatchOption result
        (Covers (as_budget listed.now) (as_budget computed.now))
        (λ t. (dir : Dir) × IsFirstUncovered (as_budget listed.now) (as_budget computed.now) dir t) }
{
    match first_uncovered(&as_budget(listed), &as_budget(computed)) {
        None => None,
        Some((_, term)) => Some(term),
    }
}

// Tests listed flows between zones against computed ones.
fn test_zones(listed: &[ZoneFlow], computed: &[ZoneFlow]) -> Result<(), PlanCheckFault>
    requires zones { map zones_of_flow listed.now ≡ map zones_of_flow computed.now }
    ensures wide { IfOk result (λ _. AllZip CoversFlow listed.now computed.now) }
    ensures narrow { IfErr result (λ e. (from : ℕ) × (to : ℕ) × IsFirstNarrow listed.now computed.now from to × (e ≡ Fails (Zone from to))) }
{
    match first_narrow(listed, computed) {
        None => Ok(()),
        Some((from, to)) => Err(PlanCheckFault::Fails(PlanPlace::Zone(from, to))),
    }
}

/// Tests listed flows of a step against those at its differences.
pub(crate) fn test_flows(
    alloc: Global,
    task: &PlanTask,
    solved: &PlanSolved,
    listed: &PlanFlows,
) -> Result<(), PlanCheckFault>
    requires task { IsPlanTask task.now }
    requires step { HasFlows task.now.base.first solved.now }
    requires pairs { (flows : Flows) → flows_of solved.now task.now.zones ≡ Ok flows → map zones_of_flow listed.now.zones ≡ map zones_of_flow flows.zones }
    ensures wide { IfOk result (λ _. AreWide task.now solved.now listed.now) }
    ensures fault { IfErr result (FlowsFailBy task.now solved.now listed.now) }
{
    let computed = plan_flows(alloc, &task.base.first, zone_slice(&task.zones), solved)?;
    if let Some(term) = narrow_source(&listed.sources, &computed.sources) {
        return Err(PlanCheckFault::Fails(PlanPlace::Source(term)));
    }
    test_zones(listed.zones.as_slice(), computed.zones.as_slice())
}
