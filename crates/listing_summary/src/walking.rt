// Solving the steps of a listing one after another, and counting them.
ghost use Rattle.std.specs.Prelude.{◌≡◌, IfOk};
ghost use Rattle.listing_run.specs.{IsAtFirst, IsTask, IsWalk, pairs_of};
ghost use Rattle.listing_summary.specs.{IsSummarized};

use crate::summary::Summary;
use listing_run::{ListingEnd, Steps, Stop, Task};
use std::alloc::{AllocError, Global};
use step_problem::Settler;

// The summary of the steps of a task's one listing, by a walk before the first step.
fn count_steps<S: Settler>(
    alloc: Global,
    task: &Task,
    steps: &mut Steps,
    settler: &mut S,
) -> Result<(Summary, ListingEnd), AllocError>
    requires ready { S.ready settler.old }
    requires rounds { S.rounds settler.old ≡ task.now.rounds }
    requires pairs { S.pairs ≡ pairs_of task.now }
    requires task { IsTask task.now }
    requires walk { IsWalk task.now steps.old }
    requires first { IsAtFirst task.now steps.old }
    ensures { IfOk result (λ (summary, end). IsSummarized task.now summary end) }
{
    let mut summary = Summary::nothing();
    loop {
        match steps.next(alloc, task, settler) {
            Ok(_) => summary.count_step(&task.decks.first, steps.heads()),
            Err(Stop::End(end)) => return Ok((summary, end)),
            Err(Stop::Memory) => return Err(AllocError),
        }
    }
}

/// The summary of the steps of a task's one listing, and how this listing ends. The error is out of memory.
pub fn summarize<S: Settler>(
    alloc: Global,
    task: &Task,
    settler: &mut S,
) -> Result<(Summary, ListingEnd), AllocError>
    requires ready { S.ready settler.old }
    requires rounds { S.rounds settler.old ≡ task.now.rounds }
    requires pairs { S.pairs ≡ pairs_of task.now }
    requires task { IsTask task.now }
    ensures { IfOk result (λ (summary, end). IsSummarized task.now summary end) }
{
    let mut steps = Steps::new(alloc, task)?;
    let summary = count_steps(alloc, task, &mut steps, settler);
    drop(steps);
    summary
}
