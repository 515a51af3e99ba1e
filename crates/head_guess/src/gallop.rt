// Lowering settled heads along a way, in steps that grow.
use crate::one_side::OneSide;
use crate::raise::raise_within;
use crate::work::Work;
use multigrid::numbers::at;
use std::alloc::AllocError;

/// By how much heads fell: in all, at most, and in how many cells.
#[derive(Clone, Copy, Default)]
struct Fall {
    sum: i128,
    most: i64,
    cells: u64,
}

fn fall_between(from: &[i64], to: &[i64]) -> Fall {
    let mut fall = Fall::default();
    for (from, to) in from.iter().zip(to) {
        let units = from.saturating_sub(*to);
        fall.sum = fall.sum.saturating_add(units as i128);
        fall.most = fall.most.max(units);
        fall.cells = fall.cells.saturating_add((units > 0) as u64);
    }
    fall
}

/// The fall of each cell's head from one list to another, times a factor.
pub fn way_between(
    side: &OneSide,
    from: &[i64],
    to: &[i64],
    factor: i64,
) -> Result<Vec<i64>, AllocError> {
    from.iter()
        .zip(to)
        .map(|(from, to)| from.saturating_sub(*to).saturating_mul(factor))
        .collect(side.alloc)
}

// A step that is followed by another one keeps at least half of its way.
const MOST_STEPS: u32 = 64;

// The number of turns that a step may take at each cell that it moves.
const TURNS_OF_GALLOP: u64 = 8;

/// Lowers settled heads along a way, and then by twice what was kept of the last step, as long as they settle within a few turns at each cell that
/// moves, and keep half. Where they do not settle, half the step is the last one. They stay settled. Returns the longest fall.
pub fn gallop(work: &mut Work, heads: &mut Vec<i64>, way: Vec<i64>) -> Result<i64, AllocError> {
    let mut way = way;
    let mut gained = 0_i64;
    let mut turns = 0_u64;
    let mut is_last = false;
    for _ in 0..MOST_STEPS {
        let fall = |cell| at(way.as_slice(), cell) as i128;
        let mut lower = work.side.heads_below(heads.as_slice(), fall)?;
        let wanted = fall_between(heads.as_slice(), lower.as_slice());
        if wanted.cells == 0 {
            break;
        }
        let most = wanted.cells.saturating_mul(TURNS_OF_GALLOP).max(turns / 2);
        let raised = raise_within(work, &mut lower, Some(heads.as_slice()), most)?;
        turns = turns.saturating_add(raised.turns);
        if raised.is_settled {
            let kept = fall_between(heads.as_slice(), lower.as_slice());
            way = way_between(work.side, heads.as_slice(), lower.as_slice(), 2)?;
            gained = gained.saturating_add(kept.most);
            *heads = lower;
            if is_last || kept.sum.saturating_mul(2) < wanted.sum {
                break;
            }
        } else if is_last || gained == 0 {
            break;
        } else {
            is_last = true;
            for units in way.iter_mut() {
                *units /= 2;
            }
        }
    }
    Ok(gained)
}
