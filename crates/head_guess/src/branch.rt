// Branches of a turned side, to other cells and to known heads. Flows are in their least bounds.
use step_problem::{Link, Side};

/// The bounds of a branch's conductance.
#[derive(Clone, Copy)]
pub struct Branch {
    pub lo: i64,
    pub hi: i64,
}

/// A branch to a known head: that head as it counts on this side.
#[derive(Clone, Copy)]
pub struct Known {
    pub branch: Branch,
    pub head: i64,
}

// Bounds are far apart if they differ by more than 2^-10 of the conductance, as they may between two models.
const APART: u32 = 10;

/// The product of two numbers.
pub fn product(a: i64, b: i64) -> i128 {
    a as i128 * b as i128
}

/// The one of two heads that counts on a side: the lower one, or the upper one with the opposite sign.
pub fn head_on(side: Side, low: i64, high: i64) -> i64 {
    match side {
        Side::Low => low,
        Side::High => 0_i64.saturating_sub(high),
    }
}

fn to_signed(number: u64) -> i64 {
    i64::try_from(number).unwrap_or(i64::MAX)
}

impl Branch {
    /// The branch that a link is.
    pub fn of(link: &Link) -> Branch {
        Branch::new(link.lo, link.hi)
    }

    pub fn new(lo: u64, hi: u64) -> Branch {
        Branch {
            lo: to_signed(lo),
            hi: to_signed(hi),
        }
    }

    // Whether a side's balances bend where its flow turns round, against the way in which drains bend. The lower side bends one way.
    fn bends(&self, side: Side) -> bool {
        match side {
            Side::Low => false,
            Side::High => self.hi.saturating_sub(self.lo) > self.lo >> APART,
        }
    }

    /// The branch as it is where the other end is higher by `rise`, for flows of either sign, if it bends.
    pub fn line(&self, side: Side, rise: i64) -> Branch {
        if !self.bends(side) {
            return *self;
        }
        let conductance = if rise >= 0 { self.lo } else { self.hi };
        Branch {
            lo: conductance,
            hi: conductance,
        }
    }

    /// Whether it bends between these two rises.
    pub fn bends_between(&self, side: Side, one: i64, other: i64) -> bool {
        (one >= 0) != (other >= 0) && self.bends(side)
    }

    /// The flow into a cell from a head that is higher by `rise`.
    pub fn inflow(&self, rise: i64) -> i128 {
        product(if rise >= 0 { self.lo } else { self.hi }, rise)
    }

    /// What it gives to a cell when the other end's head rises by `units`, where that stood `above` the cell's.
    pub fn gain(&self, above: i64, units: i64) -> i128 {
        self.inflow(above.wrapping_add(units))
            .wrapping_sub(self.inflow(above))
    }

    /// What it takes from its cell when the cell's head rises by `units`, where it stood `above` the other end.
    pub fn loss(&self, above: i64, units: i64) -> i128 {
        self.gain(0_i64.wrapping_sub(above).wrapping_sub(units), units)
    }

    /// What it gives to a cell when the other end's head rises by one unit, where that stood `above` the cell's.
    pub fn unit_gain(&self, above: i64) -> i64 {
        if above >= 0 { self.lo } else { self.hi }
    }

    /// What it takes from its cell when the cell's head rises by one unit, where it stood `above` the other end.
    pub fn unit_loss(&self, above: i64) -> i64 {
        if above >= 0 { self.hi } else { self.lo }
    }
}
