// The amount of work that a guess may take.

/// The number of visits left. A visit is a turn at a cell, or a step at an unknown of a system.
#[derive(Clone, Copy)]
pub struct Budget {
    pub left: u64,
}

impl Budget {
    /// `visits` visits at each of `cells` cells.
    pub fn new(visits: u64, cells: usize) -> Budget {
        Budget {
            left: visits.saturating_mul(cells as u64),
        }
    }

    pub fn spend(&mut self, visits: u64) {
        self.left = self.left.saturating_sub(visits);
    }

    pub fn is_spent(&self) -> bool {
        self.left == 0
    }
}
