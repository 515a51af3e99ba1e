// Steps of flexible conjugate gradients on one level.
use crate::levels::Level;
use crate::numbers::{at, clamp_long, put};
use crate::scaled::{inner_product, times};

impl Level {
    // The next direction: the correction, made conjugate to the last direction.
    fn turn(&mut self) {
        let along = inner_product(self.correction.as_slice(), self.image.as_slice());
        let factor = along.over(self.energy);
        for (direction, correction) in self.direction.iter_mut().zip(self.correction.as_slice()) {
            let last = times(factor, *direction as i128);
            *direction = clamp_long((*correction as i128).wrapping_sub(last));
        }
    }

    // The matrix times the direction.
    fn apply(&mut self) {
        for i in 0..self.matrix.len() {
            let row = self.matrix.row(i);
            let inflow = self.matrix.inflow(&row, self.direction.as_slice());
            let own = row.pivot.times(at(self.direction.as_slice(), i));
            put(self.image.as_mut_slice(), i, own.wrapping_sub(inflow));
        }
        self.energy = inner_product(self.direction.as_slice(), self.image.as_slice());
    }

    /// Moves along the next direction, as far as the residual falls. Returns whether there was a direction.
    pub fn advance(&mut self) -> bool {
        self.turn();
        self.apply();
        if !self.energy.is_positive() {
            return false;
        }
        let along = inner_product(self.direction.as_slice(), self.residual.as_slice());
        let factor = along.over(self.energy);
        for (x, d) in self.solution.iter_mut().zip(self.direction.as_slice()) {
            *x = clamp_long((*x as i128).wrapping_add(times(factor, *d as i128)));
        }
        for (r, q) in self.residual.iter_mut().zip(self.image.as_slice()) {
            *r = r.wrapping_sub(times(factor, *q));
        }
        true
    }
}
