ghost use Rattle.std.specs.Prelude.{◌≡◌, ℕ, ◌<◌, ◌≤◌, All, IfOk, OnOk};
ghost use Rattle.batch_book.specs.{AreJobEnds, HasEnd};

use crate::book::Book;
use crate::desks::{WorkerState, desks_after_work, new_desks};
use crate::jobs::Jobs;
use crate::queue::{Counted, Queue, push_all};
use outside::Gate;
use std::alloc::{AllocError, Global};
use std::marker::Brand;
use std::sync::Wait;
use std::thread::Threads;

// Gathers the books of all desks into one.
fn gather_all<'a, J: Jobs>(book: &mut Book<'a, J>, mut desks: Vec<WorkerState<'a, J>>)
where
    J::End: Drop,
    requires { All (λ d. d.book.0 ≡ book.old.0) desks.items }
    ensures { book.new.0 ≡ book.old.0 }
{
    while let Some(desk) = desks.pop() {
        let theirs = desk.book;
        // The ends of their book are ends of its jobs.
        let _jobs = theirs.jobs();
        book.gather(theirs);
    }
}

// The book of the jobs that the workers ran. The error is out of memory, and then no job was run.
fn worked_book<'a, N: Counted + Sync, R: Threads + Wait + Sync, J: Jobs + Sync, G: Gate + Sync>(
    rt: &R,
    alloc: Global,
    jobs: &'a J,
    count: u32,
    workers: u32,
    gate: &G,
) -> Result<Book<'a, J>, AllocError>
where
    J::End: Send + Drop,
    requires count { (0 < count) × (J.number jobs.now ≡ count) }
    requires workers { (1 ≤ workers) × (workers ≤ 64) }
    requires numbers { N.jobs ≡ count }
    ensures { IfOk result (λ b. b.0 ≡ jobs.entry.now) }
{
    let (queue, mut pass) = Queue::<N>::ruled(alloc, count as usize)?;
    push_all(rt, &queue, &mut pass, count);
    let desks = new_desks(alloc, &queue, &mut pass, jobs, workers)?;
    let mut book = Book::new(alloc, jobs)?;
    let desks = desks_after_work(rt, alloc, &queue, jobs, desks, gate);
    gather_all(&mut book, desks);
    Ok(book)
}

// Runs the jobs that have no end, in order. The error is out of memory.
#[tactic(auto, using(crate::proofs::Placed::to_go, crate::proofs::Placed::goes_down))]
fn run_missing<'a, J: Jobs>(
    alloc: Global,
    jobs: &J,
    book: &mut Book<'a, J>,
) -> Result<(), AllocError>
where
    J::End: Drop,
    requires { book.old.0 ≡ jobs.now }
    ensures jobs { OnOk result (book.new.0 ≡ jobs.now) }
    ensures all { OnOk result ((job : ℕ) → job < J.number jobs.now → HasEnd book.new.1 job) }
{
    let mut next = book.first_missing();
    while let Some(job) = next {
        let end = jobs.end_of(alloc, job)?;
        book.put(job, end);
        next = book.first_missing();
    }
    Ok(())
}

/// Runs all jobs by `workers` workers, each in a thread of its own where one can be started, and returns one end for
/// each job, in the order of the jobs. A worker passes the gate before each of its jobs and stops where memory is short;
/// jobs without an end are then run here. The error is out of memory.
pub fn run_batch<R: Threads + Wait + Sync, J: Jobs + Sync, G: Gate + Sync>(
    rt: &R,
    alloc: Global,
    jobs: &J,
    workers: u32,
    gate: &G,
) -> Result<Vec<J::End>, AllocError>
where
    J::End: Send + Drop,
    requires { (1 ≤ workers) × (workers ≤ 64) }
    ensures { IfOk result (λ ends. AreJobEnds (J.is_end jobs.now) (J.number jobs.now) ends.items) }
{
    let count = jobs.count();
    if count == 0 {
        return Ok(Vec::new(alloc));
    }
    let mut book = worked_book::<Brand, R, J, G>(rt, alloc, jobs, count, workers, gate)?;
    run_missing(alloc, jobs, &mut book)?;
    book.into_ends(alloc)
}
