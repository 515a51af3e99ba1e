// Putting the steps, each while the next one is solved.
ghost use Rattle.std.specs.Prelude.{◌≡◌, ◌⊎◌, List, ◌++◌, IfOk, IfErr, None, Some, true, false};
ghost use Rattle.outside.specs.{Put};
ghost use Rattle.outside.specs.declared.traits.SinkError.TheVariants.{Write};
ghost use Rattle.run_puts.specs.{IsEnd, IsPut, IsRun, PutsMore};
ghost use Rattle.listing_run.specs.{IsListingBeside, IsCutListing, last_line, status_of, ReachesFirst, RestsOrSettlesFirst, IsAtFirst, IsNextText, IsStopEnd};
ghost use Rattle.listing_run.specs.{IsTask, IsWalk, StopsAt, times_left, pairs_of};

use crate::solving::Stop;
use crate::steps::{Steps, Task};
use crate::text::ListingEnd;
use listing_io::write_first;
use model_types::TimeStep;
use outside::{Sink, SinkError};
use run_puts::{Status, put_line, put_memory, put_piece};
use settle_driver::StepSettler;
use std::alloc::Global;
use std::thread::{Threads, join_mut};
use step_problem::Settler;

// Puts a piece while the next step is solved.
fn put_while_solving<R: Threads + Sync, K: Sink + Send, S: Settler>(
    rt: &R,
    alloc: Global,
    task: &Task,
    steps: &mut Steps,
    settler: &mut S,
    out: &mut K,
    piece: &[u8],
) -> (Option<Status>, Result<Vec<u8>, Stop>)
    requires ready { S.ready settler.old }
    requires rounds { S.rounds settler.old ≡ task.now.rounds }
    requires pairs { S.pairs ≡ pairs_of task.now }
    requires task { IsTask task.now }
    requires walk { IsWalk task.now steps.old }
    ensures puts { (start : _) (puts : List Put) → K.leads start puts out.old →
        (tail : List Put) × K.leads start (puts ++ tail) out.new × IsPut piece.now result.0 tail }
    ensures ready { S.ready settler.new }
    ensures rounds { S.rounds settler.new ≡ S.rounds settler.old }
    ensures walk { IsWalk task.now steps.new }
    ensures next { IfOk result.1 (λ text. IsNextText S.leads task.now steps.old steps.new settler.old settler.new text.items) }
    ensures stop { IfErr result.1 (StopsAt task.now steps.old.heads (times_left steps.old)) }
    ensures led { IfErr result.1 (λ _. RestsOrSettlesFirst S.leads task.now (times_left steps.old) steps.old.heads settler.old settler.new) }
{
    join_mut(
        rt,
        &mut || put_piece(out, piece),
        &mut || steps.next_text(alloc, task, settler),
    )
}

// Puts the last line of a listing that ends so.
fn put_end<K: Sink>(alloc: Global, task: &Task, end: ListingEnd, out: &mut K) -> Status
    requires { IsTask task.now }
    ensures { (start : _) (puts : List Put) → K.leads start puts out.old →
        (tail : List Put) × K.leads start (puts ++ tail) out.new
        × IsEnd (last_line task.now.decks.first.grid end) (status_of end) result tail }
{
    let line = end.line(alloc, &task.decks.first.grid);
    put_line(out, line, end.status())
}

// Ends a run whose settler has to stop.
fn end_stopped<K: Sink>(error: SinkError, out: &mut K) -> Status
    ensures { (start : _) (puts : List Put) → K.leads start puts out.old →
        (tail : List Put) × K.leads start (puts ++ tail) out.new × IsStopEnd error result tail }
{
    match error {
        SinkError::Write => Status::WriteFault,
        SinkError::Memory => put_memory(out),
    }
}

// Tells a settler the time of the step that begins.
fn begin_step<S: StepSettler>(settler: &mut S, at: TimeStep)
    requires ready { S.ready settler.old }
    ensures begins { S.begins settler.old at.period at.step settler.new }
    ensures rounds { S.rounds settler.new ≡ S.rounds settler.old }
    ensures ready { S.ready settler.new }
{
    settler.begin(at.period, at.step);
}

// Puts the listing of a task by a walk before the first step.
fn put_walk<R: Threads + Sync, K: Sink + Send, S: StepSettler>(
    rt: &R,
    alloc: Global,
    task: &Task,
    steps: &mut Steps,
    settler: &mut S,
    out: &mut K,
) -> Status
    requires ready { S.ready settler.old }
    requires rounds { S.rounds settler.old ≡ task.now.rounds }
    requires pairs { S.pairs ≡ pairs_of task.now }
    requires goes_on { S.stop settler.old ≡ None }
    requires task { IsTask task.now }
    requires walk { IsWalk task.now steps.old }
    requires first { IsAtFirst task.now steps.old }
    ensures puts { PutsMore K.leads out.old out.new (λ more.
        IsRun (IsListingBeside (S.stop settler.new ≡ Some Write) task.now) (IsCutListing task.now) result more
        × (result ≡ Status.Ok → ReachesFirst S.begins S.leads S.stop task.now true settler.old settler.new)) }
    ensures reaches { (settler.new ≡ settler.old) ⊎ ReachesFirst S.begins S.leads S.stop task.now false settler.old settler.new }
{
    let Ok(mut pending) = write_first(
        alloc,
        task.decks.second.is_some(),
        &task.decks.first,
        task.digits,
    ) else {
        return put_memory(out);
    };
    while let Some(at) = steps.time() {
        begin_step(settler, at);
        let (put, next) = put_while_solving(
            rt,
            alloc,
            task,
            steps,
            settler,
            out,
            pending.as_slice(),
        );
        if let Some(status) = put {
            return status;
        }
        if let Some(error) = settler.stop() {
            return end_stopped(error, out);
        }
        match next {
            Ok(text) => pending = text,
            Err(Stop::End(end)) => return put_end(alloc, task, end, out),
            Err(Stop::Memory) => return put_memory(out),
        }
    }
    if let Some(status) = put_piece(out, pending.as_slice()) {
        return status;
    }
    put_end(alloc, task, ListingEnd::Whole, out)
}

/// Puts the listing of a task: the first line, each step while the next one is solved, and the last line. The settler is
/// told the time of each step. A failed put ends the run, whatever the next step's result; then a settler that has to
/// stop does, with WriteFault where it failed to write, or else with the line MEMORY.
pub fn put_steps<R: Threads + Sync, K: Sink + Send, S: StepSettler>(
    rt: &R,
    alloc: Global,
    task: &Task,
    settler: &mut S,
    out: &mut K,
) -> Status
    requires ready { S.ready settler.old }
    requires rounds { S.rounds settler.old ≡ task.now.rounds }
    requires pairs { S.pairs ≡ pairs_of task.now }
    requires goes_on { S.stop settler.old ≡ None }
    requires task { IsTask task.now }
    ensures puts { PutsMore K.leads out.old out.new (λ more.
        IsRun (IsListingBeside (S.stop settler.new ≡ Some Write) task.now) (IsCutListing task.now) result more
        × (result ≡ Status.Ok → ReachesFirst S.begins S.leads S.stop task.now true settler.old settler.new)) }
    // Whatever the status: the settler was told the first times in turn, and each problem was that of its step, from the heads
    // of the step before it.
    ensures reaches { (settler.new ≡ settler.old) ⊎ ReachesFirst S.begins S.leads S.stop task.now false settler.old settler.new }
{
    let Ok(mut steps) = Steps::new(alloc, task) else {
        return put_memory(out);
    };
    let status = put_walk(rt, alloc, task, &mut steps, settler, out);
    drop(steps);
    status
}
