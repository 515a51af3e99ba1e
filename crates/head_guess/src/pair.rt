// Pairs of heads that may be certificates of a problem: the balanced heads of each side, moved outwards by the room at each cell.
ghost use Rattle.std.specs.Prelude.{IfOk};
ghost use Rattle.cell_relax.specs.{AreWords};

use crate::branch::head_on;
use crate::eliminable::MANY_CELLS;
use crate::guess::bounds_of;
use crate::linear::{FEW_CELLS, Linear};
use crate::links::Links;
use crate::newton::{Until, find_balanced};
use crate::one_side::{OneSide, Step};
use crate::rest::leave_rest;
use crate::share::Share;
use crate::steps::{Kept, high_start, low_start};
use crate::work::{Work, on_side};
use star_mesh::Pattern;
use std::alloc::{AllocError, Global};
use step_problem::{Barrier, Bound, Problem, Side};

// The visits at each cell for one side, and where no pattern was looked for.
const VISITS_OF_PAIR: u64 = 12_000;

const FEW_VISITS_OF_PAIR: u64 = 1_000;

/// A pair that has failed, which may be any, and how many have failed up to this one.
#[derive(Clone, Copy)]
pub struct Failed<'a> {
    pub pair: &'a [Bound],
    pub tries: u32,
}

// One side of a pair: heads near balanced ones, and the heads below them, all turned.
#[derive(Drop)]
struct HalfPair {
    near: Vec<i64>,
    lower: Vec<i64>,
}

// Whether the slopes at these heads are nearly those of the kept system.
fn is_straight_to(
    side: &OneSide,
    heads: &[i64],
    kept: &Option<Linear>,
) -> Result<bool, AllocError> {
    let slopes = side.slopes(heads)?;
    Ok(match kept {
        Some(linear) => linear.is_near(slopes.as_slice()),
        None => false,
    })
}

// The heads at which a share of each slope is left, from these.
fn half_from(
    work: &mut Work,
    near: Vec<i64>,
    share: Share,
    kept: &mut Option<Linear>,
) -> Result<HalfPair, AllocError> {
    let lower = leave_rest(work, near.as_slice(), share, kept)?;
    Ok(HalfPair { near, lower })
}

// From heads about which balances are straight, else from balanced ones.
fn half_pair(
    work: &mut Work,
    start: Vec<i64>,
    kept: &mut Option<Linear>,
) -> Result<HalfPair, AllocError> {
    let near = find_balanced(work, Until::Straight, start, kept)?;
    let half = half_from(work, near, Share::WHOLE, kept)?;
    if is_straight_to(work.side, half.lower.as_slice(), kept)? {
        return Ok(half);
    }
    let HalfPair { near, lower } = half;
    drop(lower);
    let near = find_balanced(work, Until::Balanced, near, kept)?;
    half_from(work, near, Share::WHOLE, kept)
}

// The upper side: from the lower heads, where balances are straight between the two sides, else from heads near the balanced ones.
fn high_half(
    step: &Step,
    work: &mut Work,
    low: &HalfPair,
    kept: &mut Option<Linear>,
) -> Result<HalfPair, AllocError> {
    let start = high_start(step, low.lower.as_slice(), &None)?;
    if is_straight_to(work.side, start.as_slice(), kept)? {
        let half = half_from(work, start, Share::WHOLE, kept)?;
        if is_straight_to(work.side, half.lower.as_slice(), kept)? {
            return Ok(half);
        }
        drop(half);
    } else {
        drop(start);
    }
    let start = high_start(step, low.near.as_slice(), &None)?;
    half_pair(work, start, kept)
}

// The first tries after a failed pair only correct it, with the slopes there; later ones widen it.
const TRIES_AS_NARROW: u32 = 2;

// From the heads of a side of a failed pair.
fn next_half(
    work: &mut Work,
    failed: Failed,
    kept: &mut Option<Linear>,
) -> Result<HalfPair, AllocError> {
    let side = work.side;
    let heads = failed
        .pair
        .iter()
        .map(|bound| head_on(side.side, bound.low, bound.high));
    let share = if failed.tries <= TRIES_AS_NARROW {
        Share::WHOLE
    } else {
        Share::WHOLE.plus(Share::WHOLE)
    };
    half_from(work, heads.collect(side.alloc)?, share, kept)
}

// One side of a pair: from balanced heads, the upper one from those of the lower side; or from a failed pair.
fn half_of(
    step: &Step,
    low: Option<&HalfPair>,
    failed: Option<Failed>,
    visits: u64,
    kept: &mut Option<Linear>,
) -> Result<HalfPair, AllocError> {
    let side = if low.is_some() { Side::High } else { Side::Low };
    on_side(step, side, visits, |work| match (failed, low) {
        (Some(failed), _) => next_half(work, failed, kept),
        (None, Some(low)) => high_half(step, work, low, kept),
        (None, None) => half_pair(work, low_start(step, &None)?, kept),
    })
}

// Both sides, from balanced heads, or from a failed pair.
fn pair_of<'a>(
    alloc: Global,
    p: &'a Problem,
    b: &'a Barrier,
    links: &'a Links<'a>,
    pattern: Option<&'a Pattern>,
    failed: Option<Failed>,
    visits: u64,
    kept: &mut Option<Linear>,
) -> Result<Vec<Bound>, AllocError>
    ensures { IfOk result (λ v. AreWords p.now v.items) }
{
    let step = Step {
        alloc,
        problem: p,
        barrier: b,
        links,
        pattern,
    };
    let low = half_of(&step, None, failed, visits, kept)?;
    let mut high = half_of(&step, Some(&low), failed, visits, kept)?;
    // They do not cross.
    for (head, other) in high.lower.iter_mut().zip(low.lower.as_slice()) {
        *head = (*head).min(0_i64.saturating_sub(*other));
    }
    let bounds = bounds_of(&step, low.lower.as_slice(), high.lower.as_slice());
    drop(low);
    drop(high);
    bounds
}

// Whether cycles have left a system unsolved.
fn is_hard(kept: &Option<Linear>) -> bool {
    match kept {
        Some(linear) => linear.is_hard,
        None => false,
    }
}

// Whether pairs that were corrected have failed, and cycles have left their systems unsolved: then elimination may take many operations.
fn may_be_dear(failed: Option<Failed>, kept: &Option<Linear>) -> bool {
    match failed {
        Some(failed) => failed.tries >= TRIES_AS_NARROW && is_hard(kept),
        None => false,
    }
}

// Whether a pattern is looked for only where cycles leave a system unsolved: a factor would take many operations, or be of use in few rounds.
fn needs_no_pattern(links: &Links) -> bool {
    let cells = links.len();
    cells > MANY_CELLS || cells > FEW_CELLS && !links.are_nearly_straight()
}

/// Bounds of the heads that may be a certificate of a problem and a barrier: balanced heads, moved outwards so that each balance is about the
/// slope at its cell, and rounded outwards. If a pair has failed: heads moved from it so that each balance is about the slope, or twice that
/// after some tries. It begins with what the last pair or guess has kept, which may be that of any problem.
pub fn guess_pair(
    alloc: Global,
    p: &Problem,
    b: &Barrier,
    failed: Option<Failed>,
    kept: &mut Kept,
) -> Result<Vec<Bound>, AllocError>
    ensures { IfOk result (λ v. AreWords p.now v.items) }
{
    kept.begin(alloc, p.len());
    let links = Links::of(alloc, p)?;
    let linear = &mut kept.linear;
    if needs_no_pattern(&links) && !is_hard(linear) {
        let pair = pair_of(
            alloc,
            p,
            b,
            &links,
            None,
            failed,
            FEW_VISITS_OF_PAIR,
            linear,
        )?;
        if !is_hard(linear) {
            return Ok(pair);
        }
    }
    let is_dear = may_be_dear(failed, linear);
    let pattern = kept.eliminable.pattern(alloc, &links, is_dear)?;
    let visits = if pattern.is_none() {
        FEW_VISITS_OF_PAIR
    } else {
        VISITS_OF_PAIR
    };
    pair_of(alloc, p, b, &links, pattern, failed, visits, linear)
}
