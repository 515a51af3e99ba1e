// A system with its factor.
use crate::elimination::eliminate;
use crate::pattern::Pattern;
use multigrid::Matrix;
use multigrid::numbers::{at, clamp_long, filled_value, list_of, put, shift};
use std::alloc::{AllocError, Global};
use std::mem;

// Solutions of the residual that a solution leaves.
const REFINEMENTS: u32 = 3;

/// A matrix with its factor by a pattern, and the vectors of a solution.
#[derive(Drop)]
pub struct Factor {
    matrix: Matrix,
    // Weights of the factor are raised by this number of bits.
    scale: u32,
    pub parts: Vec<u64>,
    pub diagonals: Vec<u64>,
    residual: Vec<i128>,
    solution: Vec<i64>,
    correction: Vec<i64>,
    // Right side and unknowns in the order of elimination.
    pub flows: Vec<i128>,
    pub unknowns: Vec<i64>,
}

impl Factor {
    /// The factor of a matrix that a pattern fits: it is symmetric, and no row's couplings outweigh its diagonal, which is below 2^61.
    pub fn new(alloc: Global, pattern: &Pattern, matrix: Matrix) -> Result<Factor, AllocError> {
        let mut elimination = eliminate(alloc, pattern, &matrix)?;
        let (mut memory, count) = (Ok(()), matrix.len());
        let factor = Factor {
            matrix,
            scale: elimination.scale,
            parts: mem::replace(&mut elimination.parts, Vec::new(alloc)),
            diagonals: mem::replace(&mut elimination.diagonals, Vec::new(alloc)),
            residual: list_of(&mut memory, alloc, 0, count),
            solution: list_of(&mut memory, alloc, 0, count),
            correction: list_of(&mut memory, alloc, 0, count),
            flows: list_of(&mut memory, alloc, 0, count),
            unknowns: list_of(&mut memory, alloc, 0, count),
        };
        drop(elimination);
        filled_value(factor, memory)
    }

    /// The right side of the system, which `solve` uses up: it leaves the residual there.
    pub fn right_side(&mut self) -> &mut [i128] {
        self.residual.as_mut_slice()
    }

    // Solves for the residual.
    fn correct(&mut self, pattern: &Pattern) {
        for place in 0..pattern.len() {
            let flow = at(self.residual.as_slice(), pattern.unknown_at(place));
            let flow = shift(flow, self.scale as i64);
            put(self.flows.as_mut_slice(), place, flow);
        }
        self.substitute_forward(pattern);
        self.substitute_back(pattern);
        for (place, unknown) in self.unknowns.iter().enumerate() {
            let index = pattern.unknown_at(place);
            put(self.correction.as_mut_slice(), index, *unknown);
        }
    }

    // Adds the correction to the solution, and takes its image from the residual.
    fn advance(&mut self) {
        for i in 0..self.matrix.len() {
            let own = at(self.correction.as_slice(), i);
            let solution = at(self.solution.as_slice(), i) as i128;
            let solution = clamp_long(solution.wrapping_add(own as i128));
            put(self.solution.as_mut_slice(), i, solution);
            let residual = self.residual.as_slice();
            let left = self
                .matrix
                .residual_at(i, residual, self.correction.as_slice());
            put(self.residual.as_mut_slice(), i, left);
        }
    }

    /// An approximate solution of the system: until each row's residual is below 2^bits of its diagonal, or has been solved for
    /// three times. The pattern is that of the factor.
    pub fn solve(&mut self, pattern: &Pattern, bits: u32) -> &[i64] {
        self.solution.as_mut_slice().fill(0);
        for _ in 0..=REFINEMENTS {
            self.correct(pattern);
            self.advance();
            if self.matrix.is_small(self.residual.as_slice(), bits) {
                break;
            }
        }
        self.solution.as_slice()
    }
}
