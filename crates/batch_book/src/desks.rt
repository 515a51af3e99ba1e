// The workers, each at a desk of its own.
ghost use Rattle.std.specs.Prelude.{◌≡◌, ◌<◌, ◌≤◌, All, IfOk, vec_len};
ghost use Rattle.crossbeam_queue.specs.Passes.{IsPassOf};

use crate::book::Book;
use crate::jobs::Jobs;
use crate::queue::{Counted, Held, NewPass, Queue, pop_next};
use crossbeam_queue::Pass;
use outside::Gate;
use std::alloc::{AllocError, Global};
use std::sync::Wait;
use std::thread;
use std::thread::Threads;

/// A worker's pass to the queue and its book.
#[derive(Drop)]
pub(crate) struct WorkerState<'a, J: Jobs> {
    pass: Pass<u32, Held>,
    pub(crate) book: Book<'a, J>,
}

/// A desk for each worker. The error is out of memory.
#[tactic(auto, using(crate::proofs::Queued::deals))]
pub(crate) fn new_desks<'a, N: Counted, J: Jobs>(
    alloc: Global,
    queue: &Queue<N>,
    pass: &mut Pass<u32, Held>,
    jobs: &'a J,
    workers: u32,
) -> Result<Vec<WorkerState<'a, J>>, AllocError>
where
    J::End: Drop,
    requires { IsPassOf queue.now pass.old }
    ensures count { IfOk result (λ v. vec_len v ≡ workers) }
    ensures each { IfOk result (λ v. All (λ d. IsPassOf queue.now d.pass × (d.book.0 ≡ jobs.entry.now)) v.items) }
{
    let mut desks = Vec::with_capacity(alloc, workers as usize)?;
    for _worker in 0..workers {
        let book = Book::new(alloc, jobs)?;
        let pass = queue.another::<NewPass>(pass);
        desks.push(WorkerState { pass, book })?;
    }
    Ok(desks)
}

// Takes job numbers and runs the jobs, until no number is left or memory is short.
fn work<'a, N: Counted, R: Wait, J: Jobs, G: Gate>(
    rt: &R,
    alloc: Global,
    queue: &Queue<N>,
    jobs: &J,
    desk: &mut WorkerState<'a, J>,
    worker: u32,
    gate: &G,
)
where
    J::End: Drop,
    requires pass { IsPassOf queue.now desk.old.pass }
    requires jobs { desk.old.book.0 ≡ jobs.now }
    requires count { N.jobs ≡ J.number jobs.now }
    ensures pass { IsPassOf queue.now desk.new.pass }
    ensures jobs { desk.new.book.0 ≡ jobs.now }
{
    for turn in 0..jobs.count() {
        let Some(job) = pop_next(rt, queue, &mut desk.pass) else {
            return;
        };
        gate.pass(worker, turn);
        let Ok(end) = jobs.end_of(alloc, job) else {
            return;
        };
        desk.book.put(job, end);
    }
}

/// The desks after the work. Each has a worker, in a thread of its own where one can be started. Workers are numbered from 1.
pub(crate) fn desks_after_work<
    'a,
    N: Counted + Sync,
    R: Threads + Wait + Sync,
    J: Jobs + Sync,
    G: Gate + Sync,
>(
    rt: &R,
    alloc: Global,
    queue: &Queue<N>,
    jobs: &J,
    mut desks: Vec<WorkerState<'a, J>>,
    gate: &G,
) -> Vec<WorkerState<'a, J>>
where
    J::End: Send + Drop,
    requires workers { (0 < vec_len desks) × (vec_len desks ≤ 64) }
    requires desks { All (λ d. IsPassOf queue.now d.pass × (d.book.0 ≡ jobs.now)) desks.items }
    requires count { N.jobs ≡ J.number jobs.now }
    ensures count { vec_len result ≡ vec_len desks.entry }
    ensures jobs { All (λ d. d.book.0 ≡ jobs.now) result.items }
{
    let workers = desks.len();
    thread::for_each_mut(
        rt,
        desks.as_mut_slice(),
        workers,
        &|i, desk| work(rt, alloc, queue, jobs, desk, i as u32 + 1, gate),
    );
    desks
}
