// The guess of both sides, in two threads.
ghost use Rattle.std.specs.Prelude.{IfOk};
ghost use Rattle.cell_relax.specs.{AreWords};

use crate::guess::{Guess, guess_of, pattern_of};
use crate::half::{VISITS_OF_NEWTON, half_guess};
use crate::linear::Linear;
use crate::links::Links;
use crate::newton::{Until, find_balanced};
use crate::one_side::Step;
use crate::search::first_share;
use crate::steps::{Kept, LastStep, high_start, low_start, take_last};
use crate::work::{both, on_side};
use std::alloc::{AllocError, Global};
use std::thread::{Threads, join};
use step_problem::{Barrier, Problem, Side};

// Lower heads near balanced ones, from which a round of Newton's method or two lead to them.
fn near_balanced(
    step: &Step,
    heads: Vec<i64>,
    kept: &mut Option<Linear>,
) -> Result<Vec<i64>, AllocError> {
    on_side(
        step,
        Side::Low,
        VISITS_OF_NEWTON,
        |work| find_balanced(work, Until::Near, heads, kept),
    )
}

// The room of the system of the slopes at these upper heads.
fn find_room(step: &Step, heads: &[i64], kept: &mut Option<Linear>) -> Result<(), AllocError> {
    on_side(step, Side::High, VISITS_OF_NEWTON, |work| {
        let slopes = work.side.slopes(heads)?;
        let linear = Linear::of(work, slopes.as_slice(), kept);
        drop(slopes);
        linear?.room(work)?;
        Ok(())
    })
}

// Lower heads near balanced ones, and beside them the room, which is for both sides.
fn near_with_room<R: Threads>(
    rt: &R,
    step: &Step,
    heads: Vec<i64>,
    linear: &mut Option<Linear>,
    beside: &mut Option<Linear>,
) -> Result<Vec<i64>, AllocError> {
    let upper = high_start(step, heads.as_slice(), &None)?;
    let (near, found) = join(
        rt,
        || near_balanced(step, heads, linear),
        || find_room(step, upper.as_slice(), beside),
    );
    found?;
    if let (Some(linear), Some(found)) = (linear, beside) {
        linear.take_room(found)?;
    }
    near
}

// The guesses of both sides in two threads. In the first step the room is found beside near heads, if nearly all balances are straight.
fn halves_at_once<R: Threads>(
    rt: &R,
    step: &Step,
    last: &Option<LastStep>,
    linear: &mut Option<Linear>,
    beside: &mut Option<Linear>,
) -> Result<LastStep, AllocError> {
    let heads = low_start(step, last)?;
    let near = if last.is_none() && step.links.are_nearly_straight() {
        near_with_room(rt, step, heads, linear, beside)?
    } else {
        near_balanced(step, heads, linear)?
    };
    let upper = high_start(step, near.as_slice(), last)?;
    let share = first_share(step.links);
    let (low, high) = join(
        rt,
        || half_guess(step, Side::Low, near, share, last, linear),
        || half_guess(step, Side::High, upper, share, last, beside),
    );
    let (low, high) = both(low, high)?;
    Ok(LastStep { low, high })
}

/// A guess as `guess_heads` makes it, with both sides in two threads: a few rounds of Newton's method for the lower side lead near the
/// balanced heads of both.
pub fn guess_in_two_threads<'a, R: Threads>(
    rt: &R,
    alloc: Global,
    p: &'a Problem,
    b: &'a Barrier,
    kept: &'a mut Kept,
) -> Result<Guess, AllocError>
    ensures { IfOk result (λ g. AreWords p.now (Guess.bounds g).items) }
{
    kept.begin(alloc, p.len());
    let links = Links::with_copies(alloc, p)?;
    let pattern = pattern_of(alloc, &links, &mut kept.eliminable)?;
    let step = Step {
        alloc,
        problem: p,
        barrier: b,
        links: &links,
        pattern,
    };
    let last = take_last(&mut kept.last, p);
    let (linear, beside) = (&mut kept.linear, &mut kept.beside);
    let halves = halves_at_once(rt, &step, &last, linear, beside);
    drop(last);
    guess_of(&step, kept.last.insert(halves?))
}
