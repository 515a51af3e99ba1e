// The listing of a task as one text, made on one thread.
ghost use Rattle.std.specs.Prelude.{◌≡◌, ◌++◌, IfOk};
ghost use Rattle.listing_run.specs.{IsAtFirst, IsTask, IsWalk, IsPushed, last_line, status_of, pairs_of};
ghost use Rattle.model_types.specs.{HasSize};

use crate::solving::Stop;
use crate::steps::{Steps, Task};
use listing_io::{write_first, write_no_bound, write_unfinished};
use model_types::{Grid, TimeStep};
use run_puts::Status;
use std::alloc::{AllocError, Global};
use step_problem::{NoBound, Settler};

// Adds the last line of a listing that ends so, and returns its status.
fn push_end(
    alloc: Global,
    text: &mut Vec<u8>,
    task: &Task,
    end: ListingEnd,
) -> Result<Status, AllocError>
    requires { IsTask task.now }
    ensures text { IfOk result (λ _. text.new.items ≡ text.old.items ++ last_line task.now.decks.first.grid end) }
    ensures status { IfOk result (λ status. status ≡ status_of end) }
{
    let line = end.line(alloc, &task.decks.first.grid)?;
    text.extend_from_slice(line.as_slice())?;
    Ok(end.status())
}

// Adds the listing of a task to a text, by a walk before the first step.
fn push_steps<S: Settler>(
    alloc: Global,
    text: &mut Vec<u8>,
    task: &Task,
    steps: &mut Steps,
    settler: &mut S,
) -> Result<Status, AllocError>
    requires ready { S.ready settler.old }
    requires rounds { S.rounds settler.old ≡ task.now.rounds }
    requires pairs { S.pairs ≡ pairs_of task.now }
    requires task { IsTask task.now }
    requires walk { IsWalk task.now steps.old }
    requires first { IsAtFirst task.now steps.old }
    ensures { IfOk result (λ end. IsPushed task.now end text.old.items text.new.items) }
{
    let first = write_first(
        alloc,
        task.decks.second.is_some(),
        &task.decks.first,
        task.digits,
    )?;
    text.extend_from_slice(first.as_slice())?;
    loop {
        match steps.next_text(alloc, task, settler) {
            Ok(step) => text.extend_from_slice(step.as_slice())?,
            Err(Stop::End(end)) => return push_end(alloc, text, task, end),
            Err(Stop::Memory) => return Err(AllocError),
        }
    }
}

/// Adds the listing of a task to a text, and returns the status that it has: Ok for a whole listing, NoBound or
/// Unfinished where it ends at a step. No thread is started. The error is out of memory, and then the text is one that
/// was begun.
pub fn push_listing<S: Settler>(
    alloc: Global,
    text: &mut Vec<u8>,
    task: &Task,
    settler: &mut S,
) -> Result<Status, AllocError>
    requires ready { S.ready settler.old }
    requires rounds { S.rounds settler.old ≡ task.now.rounds }
    requires pairs { S.pairs ≡ pairs_of task.now }
    requires task { IsTask task.now }
    ensures { IfOk result (λ end. IsPushed task.now end text.old.items text.new.items) }
{
    let mut steps = Steps::new(alloc, task)?;
    let status = push_steps(alloc, text, task, &mut steps, settler);
    drop(steps);
    status
}

// How a listing ends.

/// How a listing ends: with all steps, at the first step that has no bounds, or at the first that the rounds don't settle.
#[derive(Clone, Copy)]
pub enum ListingEnd {
    Whole,
    NoBound(TimeStep, NoBound),
    Unfinished(TimeStep),
}

impl ListingEnd {
    /// The status of a run whose listing ends so.
    pub fn status(self) -> Status
        ensures { result ≡ status_of self }
    {
        match self {
            ListingEnd::Whole => Status::Ok,
            ListingEnd::NoBound(at, fault) => Status::NoBound {
                period: at.period,
                step: at.step,
                fault,
            },
            ListingEnd::Unfinished(at) => Status::Unfinished {
                period: at.period,
                step: at.step,
            },
        }
    }

    /// The last line of a listing that ends so.
    pub fn line(self, alloc: Global, grid: &Grid) -> Result<Vec<u8>, AllocError>
        requires { HasSize grid.now }
        ensures { IfOk result (λ line. line.items ≡ last_line grid.now self) }
    {
        match self {
            ListingEnd::Whole => Vec::from_slice(alloc, b"END\n"),
            ListingEnd::NoBound(at, fault) => write_no_bound(alloc, grid, at, fault),
            ListingEnd::Unfinished(at) => write_unfinished(alloc, at),
        }
    }
}
