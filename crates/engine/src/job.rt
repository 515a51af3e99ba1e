// A job of a batch, and its run.
ghost use Rattle.std.specs.Prelude.{◌≡◌, Err, IfOk, Ok};
ghost use Rattle.listing_run.specs.{IsTask, pairs_of};
ghost use Rattle.engine.specs.{IsJobEnd, IsRunText, model_line};

use certified_pair::QuickPairs;
use listing_io::write_refused;
use listing_run::{Task, push_listing};
use near_settler::SerialSettler;
use outside::{Name, Refusal};
use run_puts::{JobEnd, Status};
use std::alloc::{AllocError, Global};
use step_problem::Settler;

/// A name of a batch's list, and what is listed of its model, or the first refusal of its files.
#[derive(Drop)]
pub(crate) struct Job {
    pub(crate) name: Name,
    pub(crate) read: Result<Task, Refusal>,
}

// The line before the text of a job.
fn name_line(alloc: Global, name: &str) -> Result<Vec<u8>, AllocError>
    ensures { IfOk result (λ line. line.items ≡ model_line name.now) }
{
    let mut line = Vec::from_slice(alloc, b"MODEL ")?;
    line.extend_from_slice(name.as_bytes())?;
    line.push(b'\n')?;
    Ok(line)
}

// A refusal with memory of its own.
fn copy_of(alloc: Global, refusal: &Refusal) -> Result<Refusal, AllocError>
    ensures { IfOk result (λ copy. copy ≡ refusal.now) }
{
    Ok(Refusal {
        code: refusal.code,
        file: Name::new(alloc, refusal.file.as_str())?,
        line: refusal.line,
        at: refusal.at,
    })
}

// Adds the listing of a task, each step by this settler, to the line of its name.
fn end_by<S: Settler>(
    alloc: Global,
    mut text: Vec<u8>,
    task: &Task,
    settler: &mut S,
) -> Result<JobEnd, AllocError>
    requires ready { S.ready settler.old }
    requires rounds { S.rounds settler.old ≡ task.now.rounds }
    requires pairs { S.pairs ≡ pairs_of task.now }
    requires task { IsTask task.now }
    ensures { IfOk result (IsRunText (Ok task.now) text.items) }
{
    let status = push_listing(alloc, &mut text, task, settler)?;
    Ok(JobEnd { status, text })
}

// Adds the listing of a task to the line of its name.
fn end_of_task(alloc: Global, text: Vec<u8>, task: &Task) -> Result<JobEnd, AllocError>
    requires { IsTask task.now }
    ensures { IfOk result (IsRunText (Ok task.now) text.items) }
{
    let mut settler = SerialSettler::new(task.rounds);
    if task.quick {
        let mut pairs = QuickPairs::new(settler);
        return end_by(alloc, text, task, &mut pairs);
    }
    end_by(alloc, text, task, &mut settler)
}

// Adds the line of a refusal to the line of a name.
fn end_of_refusal(alloc: Global, mut text: Vec<u8>, refusal: &Refusal) -> Result<JobEnd, AllocError>
    ensures { IfOk result (IsRunText (Err refusal.now) text.items) }
{
    let line = write_refused(alloc, refusal)?;
    text.extend_from_slice(line.as_slice())?;
    let copy = copy_of(alloc, refusal)?;
    Ok(JobEnd {
        status: Status::Refused(copy),
        text,
    })
}

/// Runs a job on the calling thread, to its end. The error is out of memory.
pub(crate) fn end_of_job(alloc: Global, job: &Job) -> Result<JobEnd, AllocError>
    requires { IfOk job.now.read IsTask }
    ensures { IfOk result (IsJobEnd job.now) }
{
    let text = name_line(alloc, job.name.as_str())?;
    match &job.read {
        Ok(task) => end_of_task(alloc, text, task),
        Err(refusal) => end_of_refusal(alloc, text, refusal),
    }
}
