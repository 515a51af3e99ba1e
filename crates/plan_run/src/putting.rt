// Putting the steps of a plan, each while the next one is solved.
ghost use Rattle.std.specs.Prelude.{◌≡◌, List, ◌++◌, IfErr, IfOk};
ghost use Rattle.outside.specs.{Put};
ghost use Rattle.run_puts.specs.{IsEnd, IsPut, IsRun, PutsMore};
ghost use Rattle.plan_chain.specs.{IsAtFirst, IsPlanTask, IsPlanWalk, plan_pairs, times_left};
ghost use Rattle.plan_run.specs.{IsCutPlanListing, IsNextText, IsPlanListing, ListingStopsAt, last_line, status_of};

use crate::ends::{line_of, status_of};
use crate::steps::next_text;
use outside::Sink;
use plan_chain::{PlanEnd, PlanStop, PlanTask, PlanWalk};
use plan_listing::write_first_plan;
use run_puts::{Status, put_line, put_memory, put_piece};
use std::alloc::Global;
use std::thread::{Threads, join_mut};
use step_problem::Settler;

// Puts a piece while the next step is solved.
fn put_while_solving<R: Threads + Sync, K: Sink + Send, S: Settler>(
    rt: &R,
    alloc: Global,
    task: &PlanTask,
    walk: &mut PlanWalk,
    settler: &mut S,
    out: &mut K,
    piece: &[u8],
) -> (Option<Status>, Result<Vec<u8>, PlanStop>)
    requires ready { S.ready settler.old }
    requires rounds { S.rounds settler.old ≡ task.now.rounds }
    requires pairs { S.pairs ≡ plan_pairs task.now }
    requires task { IsPlanTask task.now }
    requires walk { IsPlanWalk task.now walk.old }
    ensures puts { (start : _) (puts : List Put) → K.leads start puts out.old →
        (tail : List Put) × K.leads start (puts ++ tail) out.new × IsPut piece.now result.0 tail }
    ensures ready { S.ready settler.new }
    ensures rounds { S.rounds settler.new ≡ S.rounds settler.old }
    ensures walk { IsPlanWalk task.now walk.new }
    ensures next { IfOk result.1 (λ text. IsNextText task.now walk.old walk.new text.items) }
    ensures stop { IfErr result.1 (ListingStopsAt task.now walk.old.heads (times_left walk.old)) }
{
    join_mut(
        rt,
        &mut || put_piece(out, piece),
        &mut || next_text(walk, alloc, task, settler),
    )
}

// Puts the last line of a listing that ends so.
fn put_end<K: Sink>(alloc: Global, task: &PlanTask, end: PlanEnd, out: &mut K) -> Status
    requires { IsPlanTask task.now }
    ensures { (start : _) (puts : List Put) → K.leads start puts out.old →
        (tail : List Put) × K.leads start (puts ++ tail) out.new
        × IsEnd (last_line task.now.base.first.grid end) (status_of end) result tail }
{
    let line = line_of(alloc, &task.base.first.grid, end);
    put_line(out, line, status_of(end))
}

// Puts the listing of a task by a walk before the first step.
fn put_walk<R: Threads + Sync, K: Sink + Send, S: Settler>(
    rt: &R,
    alloc: Global,
    task: &PlanTask,
    walk: &mut PlanWalk,
    settler: &mut S,
    out: &mut K,
) -> Status
    requires ready { S.ready settler.old }
    requires rounds { S.rounds settler.old ≡ task.now.rounds }
    requires pairs { S.pairs ≡ plan_pairs task.now }
    requires task { IsPlanTask task.now }
    requires walk { IsPlanWalk task.now walk.old }
    requires first { IsAtFirst task.now walk.old }
    ensures { PutsMore K.leads out.old out.new (IsRun (IsPlanListing task.now) (IsCutPlanListing task.now) result) }
{
    let Ok(mut pending) = write_first_plan(
        alloc,
        task.base.second.is_some(),
        &task.base.first,
        task.digits,
    ) else {
        return put_memory(out);
    };
    loop {
        let (put, next) = put_while_solving(
            rt,
            alloc,
            task,
            walk,
            settler,
            out,
            pending.as_slice(),
        );
        if let Some(status) = put {
            return status;
        }
        match next {
            Ok(text) => pending = text,
            Err(PlanStop::End(end)) => return put_end(alloc, task, end, out),
            Err(PlanStop::Memory) => return put_memory(out),
        }
    }
}

/// Puts the listing of a task: the first line, each step while the next one is solved, and the last line. A failed put ends the
/// run, whatever the next step's result.
pub fn put_plan_steps<R: Threads + Sync, K: Sink + Send, S: Settler>(
    rt: &R,
    alloc: Global,
    task: &PlanTask,
    settler: &mut S,
    out: &mut K,
) -> Status
    requires ready { S.ready settler.old }
    requires rounds { S.rounds settler.old ≡ task.now.rounds }
    requires pairs { S.pairs ≡ plan_pairs task.now }
    requires task { IsPlanTask task.now }
    ensures { PutsMore K.leads out.old out.new (IsRun (IsPlanListing task.now) (IsCutPlanListing task.now) result) }
{
    let Ok(mut walk) = PlanWalk::new(alloc, task) else {
        return put_memory(out);
    };
    let status = put_walk(rt, alloc, task, &mut walk, settler, out);
    // one call, so that the proof has no part for each of its fields
    drop(walk);
    status
}
