// Raising heads until nothing moves.
use crate::marks::{CELLS, Marks, Sweep};
use crate::nodes::Nodes;
use crate::work::Work;
use std::alloc::AllocError;

// Turns at the marked cells of one word. Returns whether a cell moved.
fn turn_word(work: &mut Work, nodes: &mut Nodes, mut sweep: Sweep, marks: &mut Marks) -> bool {
    let mut moved = false;
    for _ in 0..CELLS {
        let Some(cell) = marks.take_next(&mut sweep) else {
            break;
        };
        work.budget.spend(1);
        moved |= nodes.turn(work.side, cell, marks);
    }
    moved
}

// The words of a band, whose nodes and links a processor's own cache holds, and the sweeps that a band is given before the next one.
const WORDS_OF_BAND: usize = 64;

const SWEEPS_OF_BAND: u32 = 8;

// Turns at the marked cells of a band. Returns whether a cell moved.
fn sweep_band(
    work: &mut Work,
    nodes: &mut Nodes,
    band: usize,
    is_down: bool,
    marks: &mut Marks,
) -> bool {
    let mut moved = false;
    let first = band.saturating_mul(WORDS_OF_BAND);
    for k in 0..WORDS_OF_BAND {
        let place = if is_down { WORDS_OF_BAND - 1 - k } else { k };
        let word = first.saturating_add(place);
        if marks.has_any(word) {
            moved |= turn_word(work, nodes, Sweep::new(word, is_down), marks);
        }
    }
    moved
}

// Sweeps down and up a band, until nothing moves there. Returns whether a cell moved.
fn raise_band(
    work: &mut Work,
    nodes: &mut Nodes,
    band: usize,
    is_down: bool,
    sweeps: u32,
    marks: &mut Marks,
    end: u64,
) -> bool {
    let (mut moved, mut is_down) = (false, is_down);
    for _ in 0..sweeps {
        if !sweep_band(work, nodes, band, is_down, marks) {
            break;
        }
        moved = true;
        is_down = !is_down;
        if work.budget.left <= end {
            break;
        }
    }
    moved
}

// Turns at all marked cells, band by band. Returns whether a cell moved.
fn sweep(work: &mut Work, nodes: &mut Nodes, is_down: bool, marks: &mut Marks, end: u64) -> bool {
    let mut moved = false;
    let bands = marks.len() / WORDS_OF_BAND + 1;
    let sweeps = if bands == 1 { 1 } else { SWEEPS_OF_BAND };
    for k in 0..bands {
        let band = if is_down { bands - 1 - k } else { k };
        moved |= raise_band(work, nodes, band, is_down, sweeps, marks, end);
    }
    moved
}

const MOST_SWEEPS: u32 = 1_000_000;

// Raises heads by sweeps down and up over the cells that may rise, until nothing moves any more, or the budget comes to its end. Returns
// whether nothing moves.
fn raise(work: &mut Work, nodes: &mut Nodes, end: u64) -> Result<bool, AllocError> {
    let mut marks = nodes.marks(work.side)?;
    for _ in 0..MOST_SWEEPS {
        for is_down in [false, true] {
            if !sweep(work, nodes, is_down, &mut marks, end) {
                return Ok(true);
            }
            if work.budget.left <= end {
                return Ok(false);
            }
        }
    }
    Ok(false)
}

/// Whether heads settled, and the turns that it took.
#[derive(Clone, Copy)]
pub struct Raised {
    pub is_settled: bool,
    pub turns: u64,
}

/// Raises heads, none above its cap, until nothing moves or `turns` turns are made.
pub fn raise_within(
    work: &mut Work,
    heads: &mut Vec<i64>,
    caps: Option<&[i64]>,
    turns: u64,
) -> Result<Raised, AllocError> {
    let mut nodes = Nodes::new(work.side, heads.as_slice(), caps)?;
    let given = work.budget.left;
    let is_settled = raise(work, &mut nodes, given.saturating_sub(turns))?;
    nodes.write_heads(heads.as_mut_slice());
    let turns = given.saturating_sub(work.budget.left);
    Ok(Raised { is_settled, turns })
}

/// Raises heads, each at most as often, until nothing moves. Returns which have risen as often.
pub fn raise_counted(
    work: &mut Work,
    heads: &mut Vec<i64>,
    rises: u32,
) -> Result<Vec<bool>, AllocError> {
    let mut nodes = Nodes::new(work.side, heads.as_slice(), None)?;
    nodes.bound_rises(rises)?;
    raise(work, &mut nodes, 0)?;
    nodes.write_heads(heads.as_mut_slice());
    nodes.are_spent(work.side)
}
