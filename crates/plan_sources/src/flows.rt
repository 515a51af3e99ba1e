// What flows more under a plan in a solved step.
ghost use Rattle.std.specs.Prelude.{◌≡◌, ℕ, All, IfErr, IfOk, Ok, map, option_map};
ghost use Rattle.step_problem.specs.{IsHead};
ghost use Rattle.problem_builder.specs.{AreGridHeads, IsActive, IsCellNamed};
ghost use Rattle.listing_run.specs.{AreFlowsOf, NoFlowsBy};
ghost use Rattle.zone_pairs.specs.{AreZones};
ghost use Rattle.plan_sources.specs.{HasFlows, NoPlanFlows, flows_of, rise};

use budget_bounds::TermPair;
use listing_run::flows_of;
use model_types::{FlowModel, Listed};
use plan_chain::PlanSolved;
use plan_gains::sources;
use std::alloc::{AllocError, Global};
use step_problem::{Bound, BoundFault, Problem, ZoneFlow};

/// What each term gives more under the plan, in less out, in the order of the listing, in units of 10^-(s+9): a lower and an upper flow. WELLS and
/// RECHARGE, which a plan's listing doesn't have, are 0.
#[derive(Clone, Copy)]
pub struct Sources {
    pub terms: [TermPair; 8],
}

/// What flows more under the plan in a step: from each term, and between zones.
#[derive(Drop)]
pub struct PlanFlows {
    pub sources: Sources,
    pub zones: Listed<ZoneFlow>,
}

// How much higher a head is under the plan.
fn rise(difference: Bound) -> Bound
    requires low { IsHead difference.low }
    requires high { IsHead difference.high }
    ensures { result ≡ rise difference }
{
    Bound {
        low: -difference.high,
        high: -difference.low,
    }
}

// How much higher each head is under the plan.
fn rises(alloc: Global, differences: &[Bound]) -> Result<Vec<Bound>, AllocError>
    requires { All (λ b. IsHead b.low × IsHead b.high) differences.now }
    ensures { IfOk result (λ v. v.items ≡ map rise differences.now) }
{
    let mut heads = Vec::new(alloc);
    for i in 0..differences.len() {
        heads.push(rise(differences[i]))?;
    }
    Ok(heads)
}

// What flows more between the zones of a zone file; there are none without one.
#[tactic(auto, using(crate::proofs::Steps::rises_fit))]
fn zone_gains(
    alloc: Global,
    model: &FlowModel,
    zones: Option<&[u32]>,
    problem: &Problem,
    differences: &[Bound],
) -> Result<Vec<ZoneFlow>, BoundFault>
    requires zones { AreZones model.now (option_map (λ z. z.now) zones) }
    requires heads { AreGridHeads model.now differences.now }
    requires named { (c : ℕ) → IsCellNamed problem.now c → IsActive model.now c }
    ensures flows { IfOk result (λ flows. AreFlowsOf problem.now (map rise differences.now) (option_map (λ z. z.now) zones.entry) flows.items) }
    ensures fault { IfErr result (NoFlowsBy problem.now (map rise differences.now) (option_map (λ z. z.now) zones.entry)) }
{
    let Some(_) = zones else {
        return Ok(Vec::new(alloc));
    };
    let heads = rises(alloc, differences)?;
    flows_of(alloc, model, zones, problem, heads.as_slice())
}

/// What each term of the budget gives more under the plan in a solved step, and what flows more between the zones of a zone file, if there is one. What
/// a term gives more is bounded by the sum of its branches' flows, and by the balance: all terms together give 0. Errors: FlowTooLarge at a term whose
/// flows, more or less, add up to 2^123 units, or else at a pair of zones, as in a run; lack of memory.
#[tactic(auto, unfolding(crate::specs::Flows::flows_of))]
pub fn plan_flows(
    alloc: Global,
    model: &FlowModel,
    zones: Option<&[u32]>,
    solved: &PlanSolved,
) -> Result<PlanFlows, BoundFault>
    requires zones { AreZones model.now (option_map (λ z. z.now) zones) }
    requires step { HasFlows model.now solved.now }
    ensures value { IfOk result (λ flows. flows_of solved.now (option_map (λ z. z.now) zones.entry) ≡ Ok flows) }
    ensures fault { IfErr result (NoPlanFlows solved.now (option_map (λ z. z.now) zones.entry)) }
{
    let p = &solved.differences.problem;
    let terms = match sources(
        &solved.base.problem,
        p,
        solved.differences.bounds.as_slice(),
    ) {
        Ok(terms) => terms,
        Err(refusal) => return Err(BoundFault::NoBound(refusal)),
    };
    let zones = zone_gains(alloc, model, zones, p, solved.differences.heads.as_slice())?;
    Ok(PlanFlows {
        sources: Sources { terms },
        zones: Listed::new(zones),
    })
}
