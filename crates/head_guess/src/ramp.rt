// Rivers, drains and evaporations of a turned side. Each is a ramp: a branch to a head, whose flow no longer changes where the cell's head
// is below the ramp's foot or above its top.
use crate::branch::{Branch, head_on};
use std::alloc::AllocError;
use step_problem::{Cell, Side};

/// The branch, the head at which its flow is 0, and the heads at the foot and at the top.
#[derive(Clone, Copy)]
pub struct Ramp {
    branch: Branch,
    zero: i64,
    foot: i64,
    top: i64,
}

/// The heads by which a ramp is taken as flat: below its foot by the one, above its top by the other. The latter says which conductance counts
/// where bounds are far apart, too.
#[derive(Clone, Copy)]
pub struct Bends {
    pub foot: i64,
    pub top: i64,
}

// Rivers and drains have no top.
const NO_TOP: i64 = i64::MAX;

// What flows out only, from an elevation on. Its greater conductance counts on the lower side. Where two models differ the elevation may be
// above the top on the upper side: then nothing flows.
fn outlet_ramp(side: Side, lo: u64, hi: u64, elevation: i64, top: i64) -> Ramp {
    let conductance = match side {
        _ if is_above(side, elevation, top) => 0,
        Side::Low => hi,
        Side::High => lo,
    };
    Ramp {
        branch: Branch::new(conductance, conductance),
        zero: elevation,
        foot: elevation,
        top,
    }
}

/// Adds the ramps of a cell, turned. Between the bottom of a river and any head above it, the flow is that of a branch to the stage.
pub fn add_ramps(ramps: &mut Vec<Ramp>, side: Side, cell: &Cell) -> Result<(), AllocError> {
    let no_top = head_on(side, NO_TOP, NO_TOP);
    for river in &cell.rivers {
        ramps.push(Ramp {
            branch: Branch::new(river.lo, river.hi),
            zero: head_on(side, river.stage_lo, river.stage_hi),
            foot: head_on(side, river.bottom_hi, river.bottom_lo),
            top: no_top,
        })?;
    }
    for drain in &cell.drains {
        let elevation = head_on(side, drain.elev_lo, drain.elev_hi);
        ramps.push(outlet_ramp(side, drain.lo, drain.hi, elevation, no_top))?;
    }
    for evap in &cell.evaps {
        let elevation = head_on(side, evap.ext_lo, evap.ext_hi);
        let surface = head_on(side, evap.surf_hi, evap.surf_lo);
        ramps.push(outlet_ramp(side, evap.lo, evap.hi, elevation, surface))?;
    }
    Ok(())
}

// Whether one turned head stands above another as heads do that are not turned.
fn is_above(side: Side, head: i64, other: i64) -> bool {
    match side {
        Side::Low => head > other,
        Side::High => head < other,
    }
}

impl Ramp {
    // The flow into the cell by the branch alone.
    fn branch_flow(&self, own: i64) -> i128 {
        self.branch.inflow(self.zero.wrapping_sub(own))
    }

    // What that falls by when the cell's head rises by a unit.
    fn branch_fall(&self, own: i64) -> i64 {
        self.branch.unit_loss(own.wrapping_sub(self.zero))
    }

    // The lower and the upper bend.
    fn ends(&self) -> (i64, i64) {
        (self.foot.min(self.top), self.foot.max(self.top))
    }

    // Whether the flow does not change when the cell's head rises by a unit.
    fn is_flat(&self, own: i64) -> bool {
        let (least, greatest) = self.ends();
        own < least || own >= greatest
    }

    /// The flow into the cell at its head.
    pub fn flow(&self, own: i64) -> i128 {
        let (least, greatest) = self.ends();
        self.branch_flow(own.max(least).min(greatest))
    }

    /// How far the flow falls when the cell's head rises by a unit.
    pub fn fall(&self, own: i64) -> i64 {
        if self.is_flat(own) {
            0
        } else {
            self.branch_fall(own)
        }
    }

    /// How far the flow falls at most when the cell's head rises by a unit, up to the next bend.
    pub fn greatest_fall(&self, own: i64) -> i64 {
        if self.is_flat(own) { 0 } else { self.branch.hi }
    }

    /// The next bend above a head, if there is one.
    pub fn bend_above(&self, own: i64) -> i64 {
        let (least, greatest) = self.ends();
        match own {
            own if own < least => least,
            own if own < greatest => greatest,
            _ => i64::MAX,
        }
    }

    // Whether a head is above the top.
    fn is_topped(&self, side: Side, head: i64) -> bool {
        is_above(side, head, self.top)
    }

    /// Whether its foot or its top is within these units of a head.
    pub fn bends_within(&self, head: i64, units: i64) -> bool {
        let units = units.unsigned_abs();
        self.foot.abs_diff(head) <= units || self.top.abs_diff(head) <= units
    }

    /// Whether its line by one head is not that by another one: either is above the top, or its flow has turned round.
    pub fn changes_between(&self, side: Side, one: i64, other: i64) -> bool {
        let (rise, other_rise) = (self.zero.wrapping_sub(one), self.zero.wrapping_sub(other));
        self.is_topped(side, one) != self.is_topped(side, other)
            || self.branch.bends_between(side, rise, other_rise)
    }

    /// The flow into the cell and its slope, where the ramp is flat by these bends alone: else it goes on beyond its foot and its top.
    pub fn piece(&self, side: Side, own: i64, bends: Bends) -> (i128, i64) {
        let branch = self.branch.line(side, self.zero.wrapping_sub(bends.top));
        let line = Ramp { branch, ..*self };
        if self.is_topped(side, bends.top) {
            (line.branch_flow(self.top), 0)
        } else if is_above(side, self.foot, bends.foot) {
            (line.branch_flow(self.foot), 0)
        } else {
            (line.branch_flow(own), line.branch_fall(own))
        }
    }
}
