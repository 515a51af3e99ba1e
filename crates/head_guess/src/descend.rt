// From settled heads down to the first settled ones.
use crate::gallop::{gallop, way_between};
use crate::sink::Sink;
use crate::work::{Work, both};
use std::alloc::AllocError;

// The greatest number of sets that fall, one after the other.
const MOST_SETS: u32 = 1_000_000;

// The number of units before the first gallop, between two gallops that gain, and at most between two.
const FIRST_WAIT: u32 = 24;

const SHORT_WAIT: u32 = 16;

const LONG_WAIT: u32 = 32;

// The number before the first one where few units are left.
const WAIT_OF_FEW: u32 = 64;

// A gallop gains if it lowers a head by at least this many units.
const GAIN: i64 = 32;

/// Lowers settled heads unit by unit, and by gallops along the way that the last units went, until all cells rise again after a unit or the budget
/// comes to its end. Returns the order in which they do. Where few units are left the first gallop is later.
pub fn descend(
    work: &mut Work,
    heads: &mut Vec<i64>,
    is_near: bool,
    end: u64,
) -> Result<Vec<u32>, AllocError> {
    let side = work.side;
    let mut from = heads.clone()?;
    let mut wait = if is_near { WAIT_OF_FEW } else { FIRST_WAIT };
    let mut since = 0_u32;
    for _ in 0..MOST_SETS {
        let units = wait.saturating_sub(since).max(1);
        let mut sink = Sink::new(side, heads.as_slice(), units)?;
        let is_over = work.budget.left <= end;
        let fallen = if is_over {
            Ok(0)
        } else {
            sink.fall_through(side, heads.as_mut_slice())
        };
        work.budget.spend(sink.visits);
        if is_over || sink.is_empty() {
            let order = sink.last_order(side.alloc);
            drop(sink);
            drop(from);
            let (order, _) = both(order, fallen)?;
            return Ok(order);
        }
        drop(sink);
        since = since.saturating_add(fallen?);
        if since >= wait {
            since = 0;
            let way = way_between(side, from.as_slice(), heads.as_slice(), 1)?;
            let gained = gallop(work, heads, way)?;
            wait = if gained >= GAIN {
                SHORT_WAIT
            } else {
                wait.saturating_mul(2).min(LONG_WAIT)
            };
            from = heads.clone()?;
        }
    }
    Ok(Vec::new(side.alloc))
}
