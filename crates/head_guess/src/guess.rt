// The guess of both sides.
ghost use Rattle.std.specs.Prelude.{IfOk};
ghost use Rattle.cell_relax.specs.{AreWords};

use crate::eliminable::{Eliminable, MANY_CELLS};
use crate::half::{HalfGuess, half_guess};
use crate::linear::Linear;
use crate::links::Links;
use crate::one_side::{Step, turned_head};
use crate::search::first_share;
use crate::steps::{Kept, LastStep, high_start, low_start, take_last};
use crate::work::both;
use multigrid::numbers::at;
use star_mesh::Pattern;
use std::alloc::{AllocError, Global};
use step_problem::{Barrier, Bound, Problem, Side};

/// Heads near the settled ones, one bound for each cell, and cells in an order in which relaxing them moves heads
/// that are a unit off back to the settled ones at once.
#[derive(Drop)]
pub struct Guess {
    pub bounds: Vec<Bound>,
    pub order: Vec<u32>,
}

/// One bound for each cell, of turned heads, cut to those in range.
pub fn bounds_of(step: &Step, low: &[i64], high: &[i64]) -> Result<Vec<Bound>, AllocError>
    ensures { IfOk result (λ v. AreWords step.now.problem.now v.items) }
{
    let cells = step.problem.len();
    let mut bounds = Vec::with_capacity(step.alloc, cells)?;
    for cell in 0..cells {
        bounds.push(Bound {
            low: turned_head(Side::Low, at(low, cell)),
            high: turned_head(Side::High, at(high, cell)),
        })?;
    }
    Ok(bounds)
}

/// The guess of both sides.
pub fn guess_of(step: &Step, halves: &LastStep) -> Result<Guess, AllocError>
    ensures { IfOk result (λ g. AreWords step.now.problem.now (Guess.bounds g).items) }
{
    let (low, high) = (&halves.low, &halves.high);
    let bounds = bounds_of(step, low.heads(), high.heads())?;
    let mut order = Vec::new(step.alloc);
    for half in [low, high] {
        if let Some(lowest) = &half.lowest {
            order.extend_from_slice(lowest.order.as_slice())?;
        }
    }
    Ok(Guess { bounds, order })
}

// The guess of the upper side, near that of the lower one.
fn high_guess(
    step: &Step,
    low: &HalfGuess,
    last: &Option<LastStep>,
    kept: &mut Option<Linear>,
) -> Result<HalfGuess, AllocError> {
    let start = high_start(step, low.balanced.as_slice(), last)?;
    let share = match &low.lowest {
        Some(lowest) => lowest.share,
        None => first_share(step.links),
    };
    half_guess(step, Side::High, start, share, last, kept)
}

// The guesses of both sides, one after the other.
fn halves_in_turn(
    step: &Step,
    last: &Option<LastStep>,
    kept: &mut Option<Linear>,
) -> Result<LastStep, AllocError> {
    let start = low_start(step, last)?;
    let share = first_share(step.links);
    let low = half_guess(step, Side::Low, start, share, last, kept)?;
    let high = high_guess(step, &low, last, kept);
    let (low, high) = both(Ok(low), high)?;
    Ok(LastStep { low, high })
}

/// The pattern of the links, if elimination may be of use in guessing settled heads: it takes long with many cells, and cycles do as well where
/// links are even.
pub fn pattern_of<'k>(
    alloc: Global,
    links: &Links,
    eliminable: &'k mut Eliminable,
) -> Result<Option<&'k Pattern>, AllocError> {
    if links.len() > MANY_CELLS && links.are_even() && links.are_nearly_straight() {
        return Ok(None);
    }
    eliminable.pattern(alloc, links, false)
}

/// A guess of the settled pair of a problem and a barrier. It begins with what the guess of the last step has kept, which may be that of any problem.
pub fn guess_heads<'a>(
    alloc: Global,
    p: &'a Problem,
    b: &'a Barrier,
    kept: &'a mut Kept,
) -> Result<Guess, AllocError>
    ensures { IfOk result (λ g. AreWords p.now (Guess.bounds g).items) }
{
    kept.begin(alloc, p.len());
    let links = Links::with_copies(alloc, p)?;
    let pattern = pattern_of(alloc, &links, &mut kept.eliminable)?;
    let step = Step {
        alloc,
        problem: p,
        barrier: b,
        links: &links,
        pattern,
    };
    let last = take_last(&mut kept.last, p);
    let halves = halves_in_turn(&step, &last, &mut kept.linear);
    drop(last);
    guess_of(&step, kept.last.insert(halves?))
}
