// The guess of one side.
use crate::linear::Linear;
use crate::lower::{Lowest, lowest_below, lowest_by_rests, lowest_from};
use crate::newton::{Until, find_balanced};
use crate::one_side::{OneSide, Step};
use crate::raise::raise_within;
use crate::share::Share;
use crate::steps::LastStep;
use crate::work::{Work, on_side};
use multigrid::numbers::at;
use std::alloc::AllocError;
use step_problem::Side;

/// One side's guess: its balanced heads, and the first settled ones below them, if any settled.
#[derive(Drop)]
pub struct HalfGuess {
    pub balanced: Vec<i64>,
    pub lowest: Option<Lowest>,
}

impl HalfGuess {
    /// The heads that it ended at.
    pub fn heads(&self) -> &[i64] {
        match &self.lowest {
            Some(lowest) => lowest.heads.as_slice(),
            None => self.balanced.as_slice(),
        }
    }
}

/// The visits at each cell for balanced heads, and for the search and the descent. The latter get more where the room
/// is wide, since plain sweeps there take about ten times as many.
pub const VISITS_OF_NEWTON: u64 = 12_000;

const VISITS_OF_DESCENT: u64 = 2_000;

const MOST_VISITS_OF_DESCENT: u64 = 65_536;

// The number of turns at each cell that heads near those of the last step may take to settle.
const TURNS_NEAR_LAST: u64 = 12;

// They begin lower than the last settled ones by this number of units more: to raise cells by them takes less than as many falls.
const UNITS_BELOW_LAST: i128 = 5;

// A descent from heads of the last step, moved as far as the balanced ones have. None where they did not settle within a few turns, or the
// descent did not end.
fn lowest_near(
    side: &OneSide,
    balanced: &[i64],
    last: &HalfGuess,
) -> Result<Option<Lowest>, AllocError> {
    let Some(lowest) = &last.lowest else {
        return Ok(None);
    };
    let fall = |cell| {
        let below = at(last.balanced.as_slice(), cell) as i128;
        below
            .wrapping_sub(at(lowest.heads.as_slice(), cell) as i128)
            .wrapping_add(UNITS_BELOW_LAST)
    };
    let mut heads = side.heads_below(balanced, fall)?;
    let mut work = Work::new(side, VISITS_OF_DESCENT);
    let turns = TURNS_NEAR_LAST.saturating_mul(side.len() as u64);
    if !raise_within(&mut work, &mut heads, None, turns)?.is_settled {
        drop(heads);
        return Ok(None);
    }
    let lowest = lowest_from(&mut work, heads, lowest.share)?;
    if work.budget.is_spent() {
        drop(lowest);
        return Ok(None);
    }
    Ok(Some(lowest))
}

// The first settled heads below balanced ones: near those of the last step, or by a search.
fn lowest_of(
    work: &mut Work,
    balanced: &[i64],
    share: Share,
    last: Option<&HalfGuess>,
    kept: &mut Option<Linear>,
) -> Result<Option<Lowest>, AllocError> {
    if let Some(last) = last {
        if let Some(lowest) = lowest_near(work.side, balanced, last)? {
            return Ok(Some(lowest));
        }
    }
    let Some(linear) = kept else {
        return Ok(None);
    };
    let room = linear.room(work)?;
    let units = room.greatest().unsigned_abs();
    let visits = units.max(VISITS_OF_DESCENT).min(MOST_VISITS_OF_DESCENT);
    let mut work = Work::new(work.side, visits);
    match lowest_below(&mut work, balanced, room, share)? {
        None => lowest_by_rests(&mut work, balanced, kept),
        lowest => Ok(lowest),
    }
}

/// The guess of a side from heads where Newton's method starts, with a share of the room to try first, and that of the last step. The linear
/// system is kept from one call to the next.
pub fn half_guess(
    step: &Step,
    side: Side,
    start: Vec<i64>,
    share: Share,
    last: &Option<LastStep>,
    kept: &mut Option<Linear>,
) -> Result<HalfGuess, AllocError> {
    let last = last.as_ref().map(|last| match side {
        Side::Low => &last.low,
        Side::High => &last.high,
    });
    on_side(step, side, VISITS_OF_NEWTON, |work| {
        let balanced = find_balanced(work, Until::Balanced, start, kept)?;
        let lowest = lowest_of(work, balanced.as_slice(), share, last, kept)?;
        Ok(HalfGuess { balanced, lowest })
    })
}
