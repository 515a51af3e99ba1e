// A batch of models.
ghost use Rattle.std.specs.Prelude.{◌≡◌, ◌≤◌, List, length, IfSome, ◌<◌, ◌^◌, slice_get};
ghost use Rattle.outside.specs.{folder_name, FileSet};
ghost use Rattle.run_puts.specs.{IsRun, NeverCut, PutsMore, IsBatch};
ghost use Rattle.engine.specs.BatchReads.{AreTasks};
ghost use Rattle.command_line.specs.{batch_of, Batch};
ghost use Rattle.engine.specs.Defined.{IsJobEnd};
ghost use Rattle.engine.specs.Parts.{ServesAlone};
ghost use Rattle.engine.specs.Uses.{folder_use};
ghost use Rattle.engine.specs.declared.job.Job.{Job as JobRead};

use crate::batch_reading::read_batch;
use crate::ending::end_reading;
use crate::job::{Job, end_of_job};
use batch_book::{Jobs, run_batch};
use command_line::BatchOrder;
use outside::{Folder, Gate, Sink};
use run_puts::{JobEnd, Status, put_ends, put_memory};
use std::alloc::{AllocError, Global};
use std::marker::Model;
use std::sync::Wait;
use std::thread::Threads;

// Runs the jobs by workers, each job on one thread, and puts the text of each.
fn put_jobs<R: Threads + Wait + Sync, K: Sink, G: Gate + Sync>(
    rt: &R,
    alloc: Global,
    jobs: &[Job],
    workers: u32,
    out: &mut K,
    gate: &G,
) -> Status
    requires workers { (1 ≤ workers) × (workers ≤ 64) }
    requires few { length jobs.now ≤ 1000 }
    requires tasks { AreTasks jobs.now }
    ensures { PutsMore K.leads out.old out.new (IsRun (IsBatch IsJobEnd jobs.now) NeverCut result) }
{
    match run_batch(rt, alloc, &ReadJobs::new(jobs), workers, gate) {
        Ok(ends) => put_ends(out, ends),
        Err(AllocError) => put_memory(out),
    }
}

/// Reads a batch, runs its jobs, and puts the text of each.
pub(crate) fn put_batch<'a, R: Threads + Wait + Sync, F: Folder, K: Sink, G: Gate + Sync>(
    rt: &R,
    alloc: Global,
    asked: BatchOrder<'a>,
    folder: &mut F,
    out: &mut K,
    gate: &G,
) -> Status
    requires may { F.may folder.old (folder_name asked.list.now) }
    ensures since { (files : FileSet) → F.agrees folder.new files → F.agrees folder.old files }
    ensures serves { PutsMore K.leads out.old out.new (ServesAlone (Batch (batch_of asked.entry)) (folder_use F.Folder folder.old folder.new) result) }
{
    match read_batch(alloc, folder, asked) {
        Ok(jobs) => put_jobs(rt, alloc, jobs.as_slice(), asked.workers, out, gate),
        Err(fault) => end_reading(alloc, fault, out),
    }
}

/// Jobs whose models are valid. Clauses see the jobs.
#[derive(Drop)]
pub(crate) struct ReadJobs<'a> {
    jobs: &'a [Job],
}

impl<'a> Model for ReadJobs<'a> {
    ghost Value = { List JobRead };

    ghost view = { λ b. b.jobs.now };

    ghost invariant = { λ b. (length b.jobs.now < 2 ^ 32) × AreTasks b.jobs.now };
}

impl<'a> ReadJobs<'a> {
    pub(crate) fn new(jobs: &'a [Job]) -> ReadJobs<'a>
        requires few { length jobs.now ≤ 1000 }
        requires tasks { AreTasks jobs.now }
        ensures { result ≡ jobs.entry.now }
    {
        ReadJobs { jobs }
    }
}

impl<'a> Jobs for ReadJobs<'a> {
    type End = JobEnd;

    ghost number = { λ s. length s };

    ghost is_end = { λ s i e. IfSome (slice_get s i) (λ job. IsJobEnd job e) };

    fn count(&self) -> u32 {
        self.jobs.len() as u32
    }

    fn end_of(&self, alloc: Global, job: u32) -> Result<JobEnd, AllocError> {
        end_of_job(alloc, &self.jobs[job as usize])
    }
}
