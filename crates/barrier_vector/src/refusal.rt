// A side of a barrier, or its first refusal.
ghost use Rattle.std.specs.Prelude.{◌<◌, ◌↔◌, length, IfOk, IfErr, IsTrue};
ghost use Rattle.step_problem.specs.{number_of};
ghost use Rattle.barrier_vector.specs.{IsOutOfRange, no_barrier_on, range_on, Names, AreCutBounds, IsOutline, IsFirst, IsMissing, LiesOut, AreHeadsOf};
ghost use Rattle.barrier_vector.specs.{IsWholeSide, IsFaultOn, IsCutFaultOn};

use crate::bounds::bounds_on;
use crate::outline::Outline;
use std::alloc::{AllocError, Global};
use step_problem::problem::HEAD_LIMIT;
use step_problem::{BoundFault, NoBound, Place, Problem, Side, StepRefusal};

// The first cell without a bound.
fn first_missing(bounds: &[Option<i64>]) -> Option<usize>
    ensures { IsFirst (IsMissing bounds.now) (length bounds.now) result }
{
    for c in 0..bounds.len() {
        if bounds[c].is_none() {
            return Some(c);
        }
    }
    None
}

/// Whether a bound lies out of the range of heads: below all of them on the low side, above all of them on the high side.
pub fn is_out_of_range(side: Side, head: i64) -> bool
    ensures { IsTrue result ↔ IsOutOfRange side head }
{
    match side {
        Side::Low => head < -HEAD_LIMIT,
        Side::High => head > HEAD_LIMIT,
    }
}

// The first cell whose bound is out of the range of heads.
fn first_out_of_range(side: Side, bounds: &[i64]) -> Option<usize>
    ensures { IsFirst (LiesOut side bounds.now) (length bounds.now) result }
{
    for c in 0..bounds.len() {
        if is_out_of_range(side, bounds[c]) {
            return Some(c);
        }
    }
    None
}

fn heads_of(alloc: Global, bounds: &[Option<i64>]) -> Result<Vec<i64>, AllocError>
    ensures { IfOk result (λ heads. AreHeadsOf bounds.now heads.items) }
{
    bounds.iter().map(|bound| bound.unwrap_or(0)).collect(alloc)
}

fn refusal(p: &Problem, cause: StepRefusal, c: usize, side: Side) -> NoBound
    requires { c < length p.now }
    ensures { Names p.now result (number_of cause) c side }
{
    let cell = p.cell(c);
    NoBound {
        code: cause.number(),
        place: Place::Cell(cell.id, side),
    }
}

// The refusal of a side where a cell has no bound.
fn no_barrier(p: &Problem, c: usize, side: Side) -> NoBound
    requires { c < length p.now }
    ensures { Names p.now result (number_of (no_barrier_on side)) c side }
{
    let cause = side.bound_of(StepRefusal::NoBarrierLow, StepRefusal::NoBarrierHigh);
    refusal(p, cause, c, side)
}

/// The refusal 26, or 27, of a cell, by its index, whose bound is out of the range of heads on a side.
pub fn out_of_range(p: &Problem, c: usize, side: Side) -> NoBound
    requires { c < length p.now }
    ensures { Names p.now result (number_of (range_on side)) c side }
{
    let cause = side.bound_of(StepRefusal::RangeLow, StepRefusal::RangeHigh);
    refusal(p, cause, c, side)
}

/// The bound of each cell on a side, cut just outside the range of heads, or the refusal of the first cell without one.
pub(crate) fn cut_side(
    alloc: Global,
    p: &Problem,
    side: Side,
    outline: &Outline,
) -> Result<Vec<i64>, BoundFault>
    requires { IsOutline side p.now (length p.now) outline.now.mark outline.now.need outline.now.anchors.items }
    ensures side { IfOk result (λ bounds. AreCutBounds side p.now bounds.items) }
    ensures fault { IfErr result (IsCutFaultOn side p.now) }
{
    p.recall_conditions();
    match bounds_on(alloc, p, side, outline) {
        Err(_) => Err(BoundFault::Memory),
        Ok(bounds) => match first_missing(&bounds) {
            Some(c) => Err(BoundFault::NoBound(no_barrier(p, c, side))),
            None => match heads_of(alloc, &bounds) {
                Ok(heads) => Ok(heads),
                Err(_) => Err(BoundFault::Memory),
            },
        },
    }
}

/// The bound of each cell on a side, all of them heads, or the side's first refusal.
pub(crate) fn whole_side(
    alloc: Global,
    p: &Problem,
    side: Side,
    outline: &Outline,
) -> Result<Vec<i64>, BoundFault>
    requires { IsOutline side p.now (length p.now) outline.now.mark outline.now.need outline.now.anchors.items }
    ensures side { IfOk result (λ heads. IsWholeSide side p.now heads.items) }
    ensures fault { IfErr result (IsFaultOn side p.now) }
{
    p.recall_conditions();
    match cut_side(alloc, p, side, outline) {
        Err(fault) => Err(fault),
        Ok(bounds) => match first_out_of_range(side, &bounds) {
            Some(c) => Err(BoundFault::NoBound(out_of_range(p, c, side))),
            None => Ok(bounds),
        },
    }
}
