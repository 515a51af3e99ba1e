// A cell beside a set that falls as one, or of it: how its balance changes by the next unit, and when others join the set or leave it.
use crate::branch::Branch;

/// When a cell burns that does not.
pub const NEVER: u32 = u32::MAX;

/// A cell that has burnt, or that falls with the set.
#[derive(Clone, Copy, Default)]
pub struct Spot {
    /// Its balance while all that have not burnt before it are a unit lower.
    pub sum: i64,
    /// How much the sum grows by the next unit.
    pub rate: i64,
    /// Its head; for a cell of the set, that before it fell.
    pub head: i64,
    pub burnt_at: u32,
    /// The first unit with another rate.
    pub until: u32,
}

impl Spot {
    /// Whether it is in the set.
    pub fn falls(&self) -> bool {
        self.burnt_at == NEVER
    }

    /// Whether units change it.
    pub fn is_at_edge(&self) -> bool {
        self.rate != 0 || self.until != NEVER
    }

    /// Adds a rate, which lasts until a unit.
    pub fn add_rate(&mut self, rate: i64, until: u32) {
        self.rate = self.rate.saturating_add(rate);
        self.until = self.until.min(until);
    }
}

/// By how many units the set has fallen, and by how many it falls at most.
#[derive(Clone, Copy)]
pub struct Depth {
    pub units: u32,
    pub last: u32,
}

impl Depth {
    /// The head of a cell.
    pub fn head_of(&self, spot: &Spot) -> i64 {
        if spot.falls() {
            spot.head.wrapping_sub(self.units as i64)
        } else {
            spot.head
        }
    }

    /// The same unit, if the set falls as far.
    pub fn within(&self, unit: i64) -> u32 {
        if unit > self.last as i64 {
            NEVER
        } else {
            u32::try_from(unit).unwrap_or(0)
        }
    }

    /// The first unit with another flow over a branch whose one end is higher by `above` after the next unit, and falls.
    pub fn end_of(&self, above: i64) -> u32 {
        if above < 0 {
            return NEVER;
        }
        let next = (self.units as i64).wrapping_add(2);
        self.within(next.saturating_add(above))
    }

    // How far a cell of the set is above one that has burnt.
    fn above(&self, falling: &Spot, burnt: &Spot) -> i64 {
        self.head_of(falling).wrapping_sub(burnt.head)
    }

    /// Adds the rate of the flow into a cell from another one.
    pub fn add_flow(&self, branch: Branch, spot: &mut Spot, other: &Spot) {
        match (spot.falls(), other.falls()) {
            (true, false) => {
                let next = self.above(spot, other).wrapping_sub(1);
                spot.add_rate(branch.unit_loss(next), self.end_of(next));
            }
            (false, true) => {
                let next = self.above(other, spot).wrapping_sub(2);
                let gain = branch.unit_gain(next);
                spot.add_rate(0_i64.saturating_sub(gain), self.end_of(next));
            }
            _ => {}
        }
    }

    /// Changes the sum of a cell, where one that it is linked with has left the set.
    pub fn leave_beside(&self, branch: Branch, left: &Spot, near: &mut Spot) {
        near.until = 0;
        if near.falls() {
            let above = self.above(near, left);
            near.sum = near.sum.saturating_add(gain_below(branch, above));
        }
    }

    /// Changes the sums of a cell that has joined the set, which burnt then, and of one that it is linked with.
    pub fn join_beside(&self, branch: Branch, joined: &mut Spot, then: u32, near: &mut Spot) {
        near.until = 0;
        if near.falls() {
            let above = near.head.wrapping_sub(joined.head);
            near.sum = near.sum.saturating_sub(gain_below(branch, above));
        } else if near.burnt_at >= then {
            let above = self.above(joined, near);
            let gain = branch.unit_gain(above.wrapping_sub(1));
            joined.sum = joined.sum.saturating_add(gain_below(branch, above));
            near.sum = near.sum.saturating_sub(gain);
        }
    }
}

// What a cell gives to the balance of one that is above it, more than if it were a unit lower.
fn gain_below(branch: Branch, above: i64) -> i64 {
    branch.unit_gain((-1_i64).wrapping_sub(above))
}
