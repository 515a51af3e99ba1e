// Heads at which a part of each slope is left as a balance.
use crate::linear::Linear;
use crate::one_side::OneSide;
use crate::share::Share;
use crate::work::Work;
use multigrid::numbers::at;
use std::alloc::AllocError;

// The bits of a solution below a unit.
const PLACES_OF_REST: u32 = 14;

// The bits of its residuals: they are at most 2^-5 of each slope.
const BITS_OF_REST: u32 = 9;

// Where heads move too far for those places: few places, and residuals of at most 2^-4 of each slope.
const FEW_PLACES: u32 = 4;

const FEW_BITS: u32 = 0;

// What is left as a balance: this share of the slope, and the part of it by which the solution may be off. Rounding changes a balance by at most
// its slope, so that the sign of what is left is sure where balances are straight and the share is at least the whole.
fn rest_of(slope: i64, share: Share) -> i128 {
    share.of(slope).wrapping_add((slope >> PLACES_OF_REST.saturating_sub(BITS_OF_REST)) as i128)
}

// Heads that are moved by the correction of these balances, rounded down.
fn corrected_heads(
    work: &mut Work,
    linear: &mut Linear,
    heads: &[i64],
    balances: &[i128],
    places: u32,
    bits: u32,
) -> Result<Vec<i64>, AllocError> {
    let unknowns = linear.solve(work, balances, places as i64, bits);
    let way = |cell| 0_i128.saturating_sub((at(unknowns, cell) as i128).wrapping_shr(places));
    work.side.heads_below(heads, way)
}

// By how much each balance exceeds what is to be left of it. A cell that would fall below its floor is fixed there: its slope is 0 from then on.
fn excess_balances(
    side: &OneSide,
    heads: &[i64],
    slopes: &mut [i64],
    share: Share,
) -> Result<Vec<i128>, AllocError> {
    let mut balances = Vec::with_capacity(side.alloc, slopes.len())?;
    for (cell, slope) in slopes.iter_mut().enumerate() {
        let head = at(heads, cell);
        let excess = side
            .balance(cell, head, heads)
            .wrapping_sub(rest_of(*slope, share));
        let (balance, held) = side.piece_if_free(cell, head, (excess, *slope));
        *slope = held;
        balances.push(balance)?;
    }
    Ok(balances)
}

// Corrected heads by the system of these slopes, by elimination where cycles leave it unsolved, and in few places where that does, too.
fn solved_heads(
    work: &mut Work,
    heads: &[i64],
    slopes: &[i64],
    balances: &[i128],
    kept: &mut Option<Linear>,
) -> Result<Vec<i64>, AllocError> {
    for _ in 0..2 {
        let linear = Linear::of(work, slopes, kept)?;
        let lower = corrected_heads(work, linear, heads, balances, PLACES_OF_REST, BITS_OF_REST)?;
        if linear.is_solved(BITS_OF_REST) || work.side.pattern.is_none() {
            return Ok(lower);
        }
        drop(lower);
    }
    let linear = Linear::of(work, slopes, kept)?;
    corrected_heads(work, linear, heads, balances, FEW_PLACES, FEW_BITS)
}

/// Heads at which this share of each slope is left as its balance, by one round of Newton's method from these heads. The linear system is kept.
pub fn leave_rest(
    work: &mut Work,
    heads: &[i64],
    share: Share,
    kept: &mut Option<Linear>,
) -> Result<Vec<i64>, AllocError> {
    let mut slopes = work.side.slopes(heads)?;
    let balances = excess_balances(work.side, heads, slopes.as_mut_slice(), share)?;
    let lower = solved_heads(work, heads, slopes.as_slice(), balances.as_slice(), kept);
    drop(slopes);
    drop(balances);
    lower
}
