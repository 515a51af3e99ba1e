// Nested dissection: the unknowns before a separator and those after it are ordered first, and the separator's own after these.
use crate::lists::Span;
use crate::search::Search;
use multigrid::Matrix;
use multigrid::numbers::{filled_value, label};
use std::alloc::{AllocError, Global};

// A part with at most this number of unknowns is not dissected.
const FEW: usize = 4;

// Searches of a part, each from a far unknown of the one before.
const SEARCHES: u32 = 3;

// Whether at least 2/5 of all unknowns are on each side of a level, or the middle one is of it.
fn is_middle(level: &Span, count: usize) -> bool {
    let before = level.first;
    let after = count.saturating_sub(level.end);
    let least = (count / 5).saturating_mul(2);
    (before >= least && after >= least) || (before <= count / 2 && after <= count / 2)
}

// The smallest level in the middle. It is not the last one.
fn separator_of(search: &Search) -> Span {
    let count = search.reached.len();
    let mut best = search.level_from(0);
    let mut level = best;
    for _ in 0..count {
        level = search.level_from(level.end);
        if level.end >= count {
            break;
        }
        let is_smaller = is_middle(&level, count) && level.len() < best.len();
        if is_smaller || !is_middle(&best, count) {
            best = level;
        }
    }
    best
}

// Puts a part of a list into an order from a place on. Returns the places that it takes.
fn put_from(order: &mut [u32], first: usize, unknowns: &[u32], part: Span) -> Span {
    let end = first.saturating_add(part.len());
    let taken = Span::new(first, end);
    for (place, unknown) in taken.of_mut(order).iter_mut().zip(part.of(unknowns)) {
        *place = *unknown;
    }
    taken
}

// Orders a part: two parts that are still to be ordered, and their separator.
fn dissect(
    matrix: &Matrix,
    search: &mut Search,
    order: &mut [u32],
    part: Span,
) -> Result<[Span; 2], AllocError> {
    for _ in 0..SEARCHES {
        search.search(matrix, part.of(order))?;
    }
    let reached = search.reached.as_slice();
    let separator = separator_of(search);
    let before = Span::new(0, separator.first);
    let before = put_from(order, part.first, reached, before);
    let after = Span::new(separator.end, reached.len());
    let after = put_from(order, before.end, reached, after);
    put_from(order, after.end, reached, separator);
    Ok([before, after])
}

// Orders all parts.
fn dissect_all(
    alloc: Global,
    matrix: &Matrix,
    search: &mut Search,
    order: &mut [u32],
) -> Result<(), AllocError> {
    let count = matrix.len();
    let mut parts = Vec::new(alloc);
    parts.push(Span::new(0, count))?;
    // Each part is smaller than the one that it is of, so that fewer than four for each unknown come.
    for _ in 0..count.saturating_mul(4) {
        let Some(part) = parts.pop() else {
            break;
        };
        if part.len() > FEW {
            for part in dissect(matrix, search, order, part)? {
                parts.push(part)?;
            }
        }
    }
    Ok(())
}

/// The unknowns of a matrix in the order of elimination.
pub fn elimination_order(alloc: Global, matrix: &Matrix) -> Result<Vec<u32>, AllocError> {
    let mut search = Search::new(alloc, matrix.len())?;
    let unknowns = (0..matrix.len()).map(|unknown| label(unknown));
    let mut order: Vec<u32> = unknowns.collect(alloc)?;
    let dissected = dissect_all(alloc, matrix, &mut search, order.as_mut_slice());
    drop(search);
    filled_value(order, dissected)
}
