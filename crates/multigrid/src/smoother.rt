// The smoother of a level, and its transfers to and from the next one.
use crate::levels::Level;
use crate::numbers::{at, clamp_long, label_at, put};

impl Level {
    // A Gauss-Seidel step at one unknown.
    fn relax(&mut self, i: usize) {
        let row = self.matrix.row(i);
        let inflow = self.matrix.inflow(&row, self.correction.as_slice());
        let right = at(self.residual.as_slice(), i);
        let value = row.pivot.quotient(inflow.wrapping_add(right));
        put(self.correction.as_mut_slice(), i, value);
    }

    /// One sweep of Gauss and Seidel on the correction, in ascending order.
    pub fn smooth_up(&mut self) {
        for i in 0..self.matrix.len() {
            self.relax(i);
        }
    }

    /// The same in descending order.
    pub fn smooth_down(&mut self) {
        for i in (0..self.matrix.len()).rev() {
            self.relax(i);
        }
    }

    /// Restricts the residual that the correction leaves to the next level: its sum over each aggregate.
    pub fn restrict(&self, coarse: &mut Level) {
        coarse.residual.as_mut_slice().fill(0);
        for (i, aggregate) in coarse.aggregates.iter().enumerate() {
            let left = self
                .matrix
                .residual_at(i, self.residual.as_slice(), self.correction.as_slice());
            let sum = at(coarse.residual.as_slice(), *aggregate as usize).wrapping_add(left);
            put(coarse.residual.as_mut_slice(), *aggregate as usize, sum);
        }
    }

    /// Prolongs the next level's solution: each unknown is corrected by that of its aggregate.
    pub fn prolong(&mut self, coarse: &Level) {
        let aggregates = coarse.aggregates.iter();
        for (correction, aggregate) in self.correction.iter_mut().zip(aggregates) {
            let coarser = at(coarse.solution.as_slice(), *aggregate as usize);
            *correction = clamp_long(*correction as i128 + coarser as i128);
        }
    }
}
