// What the guess of a step keeps for that of the next one.
use crate::eliminable::Eliminable;
use crate::half::HalfGuess;
use crate::linear::Linear;
use crate::one_side::Step;
use multigrid::numbers::{at, clamp_long};
use std::alloc::{AllocError, Global};
use step_problem::{Cell, FixedKind, Problem};

/// The guesses of both sides in a step.
#[derive(Drop)]
pub struct LastStep {
    pub low: HalfGuess,
    pub high: HalfGuess,
}

/// What the guess of a step leaves for that of the next one. Only running time depends on it.
#[derive(Drop)]
pub struct Kept {
    pub(crate) linear: Option<Linear>,
    // That of the upper side, where sides are guessed beside each other.
    pub(crate) beside: Option<Linear>,
    pub(crate) last: Option<LastStep>,
    pub(crate) eliminable: Eliminable,
}

impl Kept {
    /// Nothing, as before the first step.
    pub fn new() -> Kept {
        Kept {
            linear: None,
            beside: None,
            last: None,
            eliminable: Eliminable::Unknown,
        }
    }
}

// Before the first guess of a problem of at most this many cells, this many bytes for each are taken and given back.
const CELLS_OF_FEW: usize = 4_096;

const BYTES_OF_A_CELL: usize = 1_024;

impl Kept {
    /// Before the first guess: takes memory and gives it back. A C library that has given a long list back to the system keeps as much of what
    /// it takes later, in place of giving it back after each step; larger problems have such lists anyway.
    pub fn begin(&self, alloc: Global, cells: usize) {
        if self.linear.is_none() && cells <= CELLS_OF_FEW {
            let bytes = cells.saturating_mul(BYTES_OF_A_CELL);
            let memory: Result<Vec<u8>, AllocError> = Vec::with_capacity(alloc, bytes);
            drop(memory);
        }
    }
}

// The old head of a cell with storage.
fn old_head(cell: &Cell) -> Option<i64> {
    for fixed in &cell.fixed {
        if fixed.kind == FixedKind::Storage && fixed.lo > 0 {
            return Some(fixed.head_lo);
        }
    }
    None
}

/// Takes the last step out. None where this step has no storage, since steady heads may be far from the last ones, or where it has other cells.
pub fn take_last(last: &mut Option<LastStep>, p: &Problem) -> Option<LastStep> {
    let last = last.take();
    last.filter(|last| {
        let mut cells = 0..p.len();
        last.low.balanced.len() == p.len() && cells.any(|cell| old_head(p.cell(cell)).is_some())
    })
}

// The old head of a cell with storage, else the least surface of its evaporations, else its ceiling: there rivers, drains and evaporations
// have their effect.
fn first_head(step: &Step, cell: usize) -> i64 {
    let (problem, barrier) = (step.problem, step.barrier);
    let ceiling = at(barrier.ceiling.as_slice(), cell);
    if problem.len() <= cell {
        return ceiling;
    }
    let cell = problem.cell(cell);
    let evaps = cell.evaps.iter();
    old_head(cell).unwrap_or(evaps.fold(ceiling, |least, evap| least.min(evap.surf_lo)))
}

/// Where the balanced lower heads start: at those of the last step.
pub fn low_start(step: &Step, last: &Option<LastStep>) -> Result<Vec<i64>, AllocError> {
    match last {
        Some(last) => last.low.balanced.clone(),
        None => (0..step.problem.len())
            .map(|cell| first_head(step, cell))
            .collect(step.alloc),
    }
}

/// Where the balanced upper heads start, with the opposite sign: near the lower ones, as far from these as in the last step.
pub fn high_start(
    step: &Step,
    low: &[i64],
    last: &Option<LastStep>,
) -> Result<Vec<i64>, AllocError> {
    let heads = low.iter().enumerate().map(|(cell, head)| {
        let head = 0_i128.wrapping_sub(*head as i128);
        clamp_long(match last {
            Some(last) => head
                .wrapping_add(at(last.low.balanced.as_slice(), cell) as i128)
                .wrapping_add(at(last.high.balanced.as_slice(), cell) as i128),
            None => head,
        })
    });
    heads.collect(step.alloc)
}
