// Solving a step.
ghost use Rattle.std.specs.Prelude.{◌≡◌, ◌∷◌, List, IfOk, IfErr, ℕ, option_map};
ghost use Rattle.step_problem.specs.declared.heads.Bound.{Bound};
ghost use Rattle.cell_relax.specs.{AreWords};
ghost use Rattle.model_types.specs.declared.time_steps.TimeStep.{TimeStep};
ghost use Rattle.problem_builder.specs.{AreGridHeads, IsActive, IsCellNamed};
ghost use Rattle.deck_problems.specs.{EachChoice};
ghost use Rattle.step_chain.specs.{EnclosesMoves};
ghost use Rattle.listing_run.specs.Settlers.{IsStep, IsSolved};
ghost use Rattle.listing_run.specs.Listing.{BoundsMoves};
ghost use Rattle.listing_run.specs.Ends.{IsTask, StopsAt, stop_of, with_heads};
ghost use Rattle.listing_run.specs.Tasks.{AreFlowsOf, FlowsEnclose, NoFlowsBy};
ghost use Rattle.listing_run.specs.declared.solving.Stop.TheVariants.{Memory as OutOfMemory};
ghost use Rattle.zone_pairs.specs.{AreZones};

use crate::steps::Task;
use crate::text::ListingEnd;
use budget_bounds::laws::heads_within;
use budget_bounds::{Budget, budget};
use model_types::{FlowModel, Listed, TimeStep};
use std::alloc::{AllocError, Global};
use step_chain::{Solved, StepFault};
use step_problem::{Bound, BoundFault, Problem, ZoneFlow};
use zone_flows::zone_flows;

/// A step: its time, the heads of all cells of the grid by cell number, in units of 10^-9, its budget, and the flows
/// between zones, in units of 10^-(s+9).
#[derive(Drop)]
pub struct Step {
    pub at: TimeStep,
    pub heads: Listed<Bound>,
    pub budget: Budget,
    pub zones: Listed<ZoneFlow>,
}

/// A step but for its heads: its time, its budget, and its flows between zones.
#[derive(Drop)]
pub struct StepFlows {
    pub at: TimeStep,
    pub budget: Budget,
    pub zones: Listed<ZoneFlow>,
}

// Why a walk over the steps of a task stops.

/// Why a walk stops: the end of the listing, or lack of memory.
#[derive(Clone, Copy)]
pub enum Stop {
    End(ListingEnd),
    Memory,
}

impl From<AllocError> for Stop {
    ghost from_gives = { λ _ e. e ≡ OutOfMemory };

    fn from(_e: AllocError) -> Stop {
        Stop::Memory
    }
}

/// The stop at the step of a time, from the fault of solving it.
pub(crate) fn stop_at(at: TimeStep, fault: StepFault) -> Stop
    ensures { result ≡ stop_of at fault }
{
    match fault {
        StepFault::NoBound(refusal) => Stop::End(ListingEnd::NoBound(at, refusal)),
        StepFault::Unfinished(_) => Stop::End(ListingEnd::Unfinished(at)),
        StepFault::Memory => Stop::Memory,
    }
}

// The flows between the zones of a task.

/// The zones of a zone file, if there is one.
pub fn zone_slice(zones: &Option<Listed<u32>>) -> Option<&[u32]>
    ensures { option_map (λ z. z.now) result ≡ zones.now }
{
    match zones {
        None => None,
        Some(zones) => Some(zones.as_slice()),
    }
}

/// The flows between the zones of a zone file in a step's problem, at these heads of all cells. There are none without a
/// zone file.
pub fn flows_of(
    alloc: Global,
    model: &FlowModel,
    zones: Option<&[u32]>,
    problem: &Problem,
    heads: &[Bound],
) -> Result<Vec<ZoneFlow>, BoundFault>
    requires zones { AreZones model.now (option_map (λ z. z.now) zones) }
    requires heads { AreGridHeads model.now heads.now }
    requires named { (c : ℕ) → IsCellNamed problem.now c → IsActive model.now c }
    ensures flows { IfOk result (λ flows. AreFlowsOf problem.now heads.now (option_map (λ z. z.now) zones.entry) flows.items) }
    ensures fault { IfErr result (NoFlowsBy problem.now heads.now (option_map (λ z. z.now) zones.entry)) }
    ensures encloses { IfOk result (λ flows. FlowsEnclose problem.now heads.now (option_map (λ z. z.now) zones.entry) flows.items) }
{
    let _model = model;
    let Some(zones) = zones else {
        return Ok(Vec::new(alloc));
    };
    zone_flows(alloc, problem, zones, heads)
}

/// The budget of a solved step, and the flows between the zones of a task. There are none without a zone file.
pub(crate) fn step_flows(
    alloc: Global,
    task: &Task,
    at: TimeStep,
    solved: &Solved,
) -> Result<StepFlows, Stop>
    requires task { IsTask task.now }
    requires words { AreWords solved.now.problem solved.now.bounds }
    requires heads { AreGridHeads task.now.decks.first solved.now.heads }
    requires named { (c : ℕ) → IsCellNamed solved.now.problem c → IsActive task.now.decks.first c }
    ensures step { IfOk result (λ flows. (old : List Bound) → IsSolved task.now at old solved.now →
        IsStep task.now at old (with_heads flows solved.now.heads)) }
    // Every solution from exact heads within the old ones lies within the step's heads, budget and flows between zones.
    ensures encloses { IfOk result (λ flows. (old : List Bound) →
        EachChoice task.now.decks at (λ y. EnclosesMoves task.now.decks.first task.now.digits at y old solved.now) →
        BoundsMoves task.now at old (with_heads flows solved.now.heads)) }
    ensures stop { IfErr result (λ stop. (old : List Bound) (rest : List TimeStep) → IsSolved task.now at old solved.now →
        StopsAt task.now old (at ∷ rest) stop) }
{
    heads_within();
    solved.problem.recall_conditions();
    let budget = match budget(&solved.problem, solved.bounds.as_slice()) {
        Ok(budget) => budget,
        Err(refusal) => return Err(Stop::End(ListingEnd::NoBound(at, refusal))),
    };
    match flows_of(
        alloc,
        &task.decks.first,
        zone_slice(&task.zones),
        &solved.problem,
        solved.heads.as_slice(),
    ) {
        Ok(flows) => Ok(StepFlows {
            at,
            budget,
            zones: Listed::new(flows),
        }),
        Err(BoundFault::NoBound(refusal)) => Err(Stop::End(ListingEnd::NoBound(at, refusal))),
        Err(BoundFault::Memory) => Err(Stop::Memory),
    }
}

/// The heads of a solved step; the rest is dropped by calls.
pub(crate) fn heads_of(solved: Solved) -> Listed<Bound>
    ensures { result ≡ solved.heads }
{
    drop(solved.problem);
    drop(solved.bounds);
    solved.heads
}
