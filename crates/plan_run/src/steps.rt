// A step of a plan's listing, as its text.
ghost use Rattle.std.specs.Prelude.{◌≡◌, IfErr, IfOk, Ok};
ghost use Rattle.plan_chain.specs.{ArePlanHeads, IsPlanTask, IsPlanWalk, heads_in, plan_pairs, times_left};
ghost use Rattle.plan_sources.specs.{HasFlows};
ghost use Rattle.plan_run.specs.{flows_of, HasNoFlowsBy, IsNextText, IsStepText, ListingStopsAt};

use listing_run::zone_slice;
use model_types::TimeStep;
use plan_chain::{PlanEnd, PlanPart, PlanSolved, PlanStop, PlanTask, PlanWalk};
use plan_listing::write_plan_step;
use plan_sources::laws::plan_steps_have_flows;
use plan_sources::{PlanFlows, plan_flows};
use std::alloc::Global;
use step_problem::{BoundFault, Settler};

// The flows of a solved step.
fn step_flows(
    alloc: Global,
    task: &PlanTask,
    at: TimeStep,
    solved: &PlanSolved,
) -> Result<PlanFlows, PlanStop>
    requires task { IsPlanTask task.now }
    requires flows { HasFlows task.now.base.first solved.now }
    ensures flows { IfOk result (λ flows. flows_of task.now solved.now ≡ Ok flows) }
    ensures stop { IfErr result (HasNoFlowsBy task.now at solved.now) }
{
    match plan_flows(alloc, &task.base.first, zone_slice(&task.zones), solved) {
        Ok(flows) => Ok(flows),
        Err(BoundFault::NoBound(refusal)) => Err(PlanStop::End(PlanEnd::NoBound(
            at,
            PlanPart::Differences,
            refusal,
        ))),
        Err(BoundFault::Memory) => Err(PlanStop::Memory),
    }
}

// The text of a solved step.
fn step_text(
    alloc: Global,
    task: &PlanTask,
    at: TimeStep,
    solved: &PlanSolved,
) -> Result<Vec<u8>, PlanStop>
    requires task { IsPlanTask task.now }
    requires heads { ArePlanHeads task.now (heads_in solved.now) }
    requires flows { HasFlows task.now.base.first solved.now }
    ensures text { IfOk result (λ text. IsStepText task.now at solved.now text.items) }
    ensures stop { IfErr result (HasNoFlowsBy task.now at solved.now) }
{
    let flows = step_flows(alloc, task, at, solved)?;
    let text = write_plan_step(
        alloc,
        &task.base.first,
        task.digits,
        at,
        solved.base.heads.as_slice(),
        solved.planned.heads.as_slice(),
        solved.differences.heads.as_slice(),
        &flows,
    )?;
    Ok(text)
}

/// Solves the next step of a walk, as its text, and goes on past it.
pub(crate) fn next_text<S: Settler>(
    walk: &mut PlanWalk,
    alloc: Global,
    task: &PlanTask,
    settler: &mut S,
) -> Result<Vec<u8>, PlanStop>
    requires ready { S.ready settler.old }
    requires rounds { S.rounds settler.old ≡ task.now.rounds }
    requires pairs { S.pairs ≡ plan_pairs task.now }
    requires task { IsPlanTask task.now }
    requires walk { IsPlanWalk task.now walk.old }
    ensures ready { S.ready settler.new }
    ensures rounds { S.rounds settler.new ≡ S.rounds settler.old }
    ensures walk { IsPlanWalk task.now walk.new }
    ensures next { IfOk result (λ text. IsNextText task.now walk.old walk.new text.items) }
    ensures stop { IfErr result (ListingStopsAt task.now walk.old.heads (times_left walk.old)) }
{
    plan_steps_have_flows();
    let Some(at) = walk.time() else {
        return Err(PlanStop::End(PlanEnd::Whole));
    };
    match walk.solve(alloc, task, settler) {
        Ok(solved) => match step_text(alloc, task, at, &solved) {
            Ok(text) => {
                walk.advance(solved);
                Ok(text)
            }
            Err(stop) => {
                // one call, so that the proof has no part for each of its fields
                drop(solved);
                Err(stop)
            }
        },
        Err(stop) => Err(stop),
    }
}
