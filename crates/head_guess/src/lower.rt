// From balanced heads down to the first settled ones.
use crate::descend::descend;
use crate::extent::Extent;
use crate::linear::Linear;
use crate::raise::raise_within;
use crate::rest::leave_rest;
use crate::search::{Settled, settled_below};
use crate::share::{Room, Share};
use crate::shares::{settled_by_shares, visits_of_cycle};
use crate::work::Work;
use std::alloc::AllocError;

/// The first settled heads, the order in which cells rise again after a fall by a unit, and the share of the room that the search found.
#[derive(Drop)]
pub struct Lowest {
    pub heads: Vec<i64>,
    pub order: Vec<u32>,
    pub share: Share,
}

/// The first settled heads below settled ones.
pub fn lowest_from(
    work: &mut Work,
    mut heads: Vec<i64>,
    share: Share,
) -> Result<Lowest, AllocError> {
    let order = descend(work, &mut heads, false, 0)?;
    Ok(Lowest {
        heads,
        order,
        share,
    })
}

// The first settled heads below those of a search. Where the descent is long, it begins again from heads with a share for each cell.
fn lowest_after(
    work: &mut Work,
    balanced: &[i64],
    extent: &Extent,
    settled: Settled,
) -> Result<Lowest, AllocError> {
    let (mut heads, share) = (settled.heads, settled.share);
    let cycle = work.side.pattern.map_or(u64::MAX, visits_of_cycle);
    let most = (cycle / 4).saturating_mul(extent.most_quarters());
    let end = work.budget.left.saturating_sub(most);
    let order = descend(work, &mut heads, extent.is_even(), end)?;
    if work.budget.left > end || work.budget.is_spent() {
        return Ok(Lowest {
            heads,
            order,
            share,
        });
    }
    drop(order);
    let lower = settled_by_shares(work, balanced, share)?;
    lowest_from(work, lower.unwrap_or(heads), share)
}

/// The first settled heads below balanced ones, from a share of the room. They are searched for by one share for all
/// cells. Where the room is one of the widest, and links have a pattern, each cell has a share of its own from the start. None where nothing settles.
pub fn lowest_below(
    work: &mut Work,
    balanced: &[i64],
    room: &Room,
    share: Share,
) -> Result<Option<Lowest>, AllocError> {
    let extent = Extent::new(work.side.links, room);
    if work.side.pattern.is_some() && extent.is_widest() {
        if let Some(heads) = settled_by_shares(work, balanced, share)? {
            return Ok(Some(lowest_from(work, heads, share)?));
        }
    }
    let Some(settled) = settled_below(work, balanced, room, &extent, share)? else {
        return Ok(None);
    };
    Ok(Some(lowest_after(work, balanced, &extent, settled)?))
}

// The share of slopes that is tried first, how much less each later one is, and how many are tried.
const FIRST_REST: Share = Share(786_432);

const STEP_OF_RESTS: Share = Share(131_072);

const TRIALS_OF_RESTS: u32 = 8;

// The rounds of Newton's method for each, and the turns at each cell in which such heads settle.
const ROUNDS_OF_REST: u32 = 3;

const TURNS_OF_REST: u64 = 48;

// Heads at which this share of each slope is left as its balance, by a few rounds of Newton's method.
fn rest_below(
    work: &mut Work,
    balanced: &[i64],
    share: Share,
    kept: &mut Option<Linear>,
) -> Result<Vec<i64>, AllocError> {
    let mut heads = leave_rest(work, balanced, share, kept)?;
    for _ in 1..ROUNDS_OF_REST {
        heads = leave_rest(work, heads.as_slice(), share, kept)?;
    }
    Ok(heads)
}

/// The first settled heads below balanced ones, where no share of the room settles. Bounds of a conductance differ by a unit, by which a very wide room
/// changes flows by more than a slope. So Newton's method leads to heads with a share of each slope as balance. None where nothing settles.
pub fn lowest_by_rests(
    work: &mut Work,
    balanced: &[i64],
    kept: &mut Option<Linear>,
) -> Result<Option<Lowest>, AllocError> {
    let turns = TURNS_OF_REST.saturating_mul(work.side.len() as u64);
    let mut share = FIRST_REST;
    for _ in 0..TRIALS_OF_RESTS {
        let mut heads = rest_below(work, balanced, share, kept)?;
        if raise_within(work, &mut heads, None, turns)?.is_settled {
            return Ok(Some(lowest_from(work, heads, share)?));
        }
        drop(heads);
        share = share.minus(STEP_OF_RESTS);
    }
    Ok(None)
}
