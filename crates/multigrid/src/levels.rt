// A system with its levels: multigrid cycles are the preconditioner of conjugate gradients, on each level.
use crate::budget::Budget;
use crate::coarsen::coarser;
use crate::matrix::Matrix;
use crate::numbers::{filled_value, list_of};
use crate::scaled::Scaled;
use std::alloc::{AllocError, Global};

/// The levels of a system.
#[derive(Drop)]
pub struct Levels {
    finest: Level,
    coarser: Vec<Level>,
}

// Each level has at most half the unknowns of the one before.
const MOST_LEVELS: u32 = 40;

impl Levels {
    /// The levels over a matrix. Making them takes about as long as 20 visits at each unknown.
    pub fn new(alloc: Global, matrix: Matrix) -> Result<Levels, AllocError> {
        let mut levels = Levels {
            finest: Level::new(alloc, matrix, Vec::new(alloc)),
            coarser: Vec::new(alloc),
        };
        let added = levels.add_coarser(alloc);
        let levels = filled_value(levels, added)?;
        levels.with_vectors(alloc)
    }

    fn add_coarser(&mut self, alloc: Global) -> Result<(), AllocError> {
        for _ in 0..MOST_LEVELS {
            let last = self.coarser.last().unwrap_or(&self.finest);
            let Some(next) = coarser(alloc, &last.matrix)? else {
                break;
            };
            self.coarser
                .push(Level::new(alloc, next.matrix, next.aggregates))?;
        }
        Ok(())
    }

    // The vectors come after all matrices, whose making takes memory of its own.
    fn with_vectors(mut self, alloc: Global) -> Result<Levels, AllocError> {
        let mut memory = Ok(());
        self.finest.add_vectors(&mut memory, alloc);
        for level in self.coarser.iter_mut() {
            level.add_vectors(&mut memory, alloc);
        }
        filled_value(self, memory)
    }

    /// The right side of the system, which `solve` uses up.
    pub fn right_side(&mut self) -> &mut [i128] {
        self.finest.residual.as_mut_slice()
    }

    /// An approximate solution of the system: until each row's residual is below 2^bits of its diagonal, by at most `rounds` rounds of conjugate gradients,
    /// and within the budget.
    pub fn solve(&mut self, rounds: u32, bits: u32, budget: &mut Budget) -> &[i64] {
        let coarser = self.coarser.as_mut_slice();
        solve(&mut self.finest, coarser, rounds, bits, budget);
        self.finest.solution.as_slice()
    }
}

/// A system on one level, and the vectors of conjugate gradients on it.
#[derive(Drop)]
pub struct Level {
    pub matrix: Matrix,
    /// The aggregate of each unknown of the level before; none on the first one.
    pub aggregates: Vec<u32>,
    pub solution: Vec<i64>,
    pub residual: Vec<i128>,
    /// The preconditioner's result for the residual.
    pub correction: Vec<i64>,
    pub direction: Vec<i64>,
    /// The matrix times the direction, and the inner product of the two.
    pub image: Vec<i128>,
    pub energy: Scaled,
}

impl Level {
    // A level whose vectors are still to be made.
    fn new(alloc: Global, matrix: Matrix, aggregates: Vec<u32>) -> Level {
        Level {
            matrix,
            aggregates,
            solution: Vec::new(alloc),
            residual: Vec::new(alloc),
            correction: Vec::new(alloc),
            direction: Vec::new(alloc),
            image: Vec::new(alloc),
            energy: Scaled::ZERO,
        }
    }

    fn add_vectors(&mut self, memory: &mut Result<(), AllocError>, alloc: Global) {
        let count = self.matrix.len();
        self.solution = list_of(memory, alloc, 0, count);
        self.residual = list_of(memory, alloc, 0, count);
        self.correction = list_of(memory, alloc, 0, count);
        self.direction = list_of(memory, alloc, 0, count);
        self.image = list_of(memory, alloc, 0, count);
    }
}

// Visits at each unknown in one cycle and one step: two sweeps, a restriction and a product.
const VISITS: u64 = 4;

// The correction of a level: a smoothing, the correction of the next level, and a smoothing back.
#[cycle(multigrid)]
fn correct(level: &mut Level, coarser: &mut [Level], budget: &mut Budget) {
    level.correction.as_mut_slice().fill(0);
    level.smooth_up();
    budget.spend(VISITS.saturating_mul(level.matrix.len() as u64));
    let Some((coarse, others)) = coarser.split_first_mut() else {
        return;
    };
    level.restrict(coarse);
    let rounds = if others.is_empty() { 1 } else { 2 };
    solve(coarse, others, rounds, 0, budget);
    level.prolong(coarse);
    level.smooth_down();
}

// Solves the system of a level for its residual, until that is below 2^bits of each pivot, by at most `rounds` rounds of conjugate gradients,
// and within the budget. The solution is then in the level.
#[cycle(multigrid)]
fn solve(level: &mut Level, coarser: &mut [Level], rounds: u32, bits: u32, budget: &mut Budget) {
    level.solution.as_mut_slice().fill(0);
    level.direction.as_mut_slice().fill(0);
    for _ in 0..rounds {
        if level.matrix.is_small(level.residual.as_slice(), bits) || budget.is_spent() {
            return;
        }
        correct(level, coarser, budget);
        if !level.advance() {
            return;
        }
    }
}
