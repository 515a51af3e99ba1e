// The bounds of the cells on a side: the floor of each, or its ceiling, or none.
ghost use Rattle.std.specs.Prelude.{◌≡◌, ◌<◌, ◌↔◌, length, IfOk, IsTrue, IsSome, All};
ghost use Rattle.step_problem.specs.{IsHead};
ghost use Rattle.barrier_vector.specs.{base_on, moved_out, IsOutline, cut_on, AreAnchorPaths, IsAnchoredOrNone, IsBoundOrNone, AreBounds};

use crate::carried::with_carried_floors;
use crate::outline::Outline;
use crate::roots::anchor_roots;
use crate::search::search;
use std::alloc::{AllocError, Global};
use step_problem::{Problem, Side};

// The least number above all heads.
const ABOVE_HEADS: i128 = 4_000_000_000_000_000_001;

/// The base of a side moved outwards by a path, cut off just outside all heads.
pub(crate) fn move_out(side: Side, base: i64, path: u64) -> i64
    requires { IsHead base }
    ensures { result ≡ cut_on side (moved_out side base path) }
{
    let wide = base as i128;
    let far = path as i128;
    match side {
        Side::Low => (wide - far).max(-ABOVE_HEADS) as i64,
        Side::High => (wide + far).min(ABOVE_HEADS) as i64,
    }
}

fn anchored_bound(
    p: &Problem,
    side: Side,
    base: i64,
    levels: &[Option<u32>],
    paths: &[u64],
    c: usize,
) -> Option<i64>
    requires cell { c < length p.now }
    requires base { base ≡ base_on side p.now }
    requires paths { AreAnchorPaths side p.now levels.now paths.now }
    ensures { IsAnchoredOrNone side p.now c result }
{
    p.recall_conditions();
    match levels[c] {
        Some(_) => Some(move_out(side, base, paths[c])),
        None => None,
    }
}

// The bound of each cell that leads to an anchor of the side, None at the others.
fn anchored_bounds(
    alloc: Global,
    p: &Problem,
    side: Side,
    base: i64,
    outline: &Outline,
) -> Result<Vec<Option<i64>>, AllocError>
    requires base { base ≡ base_on side p.now }
    requires outline { IsOutline side p.now (length p.now) outline.now.mark outline.now.need outline.now.anchors.items }
    ensures { IfOk result (λ bounds. AreBounds p.now (IsAnchoredOrNone side p.now) bounds.items) }
{
    p.recall_conditions();
    let roots = anchor_roots(alloc, &outline.anchors, outline.need)?;
    let anchored = search(alloc, p, &roots, outline.need)?;
    let mut bounds = Vec::with_capacity(alloc, p.len())?;
    for c in 0..p.len() {
        bounds.push(anchored_bound(p, side, base, &anchored.levels, &anchored.paths, c))?;
    }
    Ok(bounds)
}

fn all_anchored(bounds: &[Option<i64>]) -> bool
    ensures { IsTrue result ↔ All IsSome bounds.now }
{
    bounds.iter().all(|bound| bound.is_some())
}

/// The bound of each cell on a side, cut off just outside all heads; None where it has none.
/// The components are found only where some cell leads to no anchor of the low side.
pub(crate) fn bounds_on(
    alloc: Global,
    p: &Problem,
    side: Side,
    outline: &Outline,
) -> Result<Vec<Option<i64>>, AllocError>
    requires { IsOutline side p.now (length p.now) outline.now.mark outline.now.need outline.now.anchors.items }
    ensures { IfOk result (λ bounds. AreBounds p.now (IsBoundOrNone side p.now) bounds.items) }
{
    p.recall_conditions();
    let base = outline.base();
    let anchored = anchored_bounds(alloc, p, side, base, outline)?;
    if all_anchored(&anchored) {
        return Ok(anchored);
    }
    match side {
        Side::Low => with_carried_floors(alloc, p, base, outline.need, &anchored),
        Side::High => Ok(anchored),
    }
}
