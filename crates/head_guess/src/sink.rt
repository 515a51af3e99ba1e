// A set of cells that falls as one, unit by unit. Only cells at its edge are visited: some leave it, since they would rise again, and stay
// where they are; others join it.
use crate::branch::Branch;
use crate::marks::{CELLS, Marks, Sweep};
use crate::one_side::OneSide;
use crate::spot::{Depth, NEVER, Spot};
use multigrid::numbers::{clamp_long, filled_value, label, put};
use std::alloc::{AllocError, Global};

/// All cells, and how far the set has fallen.
#[derive(Drop)]
pub struct Sink {
    spots: Vec<Spot>,
    // The cells whose balances units change.
    edge: Marks,
    joining: Vec<u32>,
    leaving: Vec<u32>,
    depth: Depth,
    // The cells that have left, in their order.
    order: Vec<u32>,
    members: u64,
    /// The number of cells that were visited.
    pub visits: u64,
}

impl Sink {
    /// The cells of settled heads that do not rise again after all that are not at their floor have fallen by a unit. They are to fall by at
    /// most these units.
    pub fn new(side: &OneSide, heads: &[i64], units: u32) -> Result<Sink, AllocError> {
        let alloc = side.alloc;
        let mut sink = Sink {
            edge: Marks::new(alloc, heads.len())?,
            spots: Vec::with_capacity(alloc, heads.len())?,
            joining: Vec::new(alloc),
            leaving: Vec::new(alloc),
            depth: Depth {
                units: 0,
                last: units,
            },
            order: Vec::new(alloc),
            members: 0,
            visits: 0,
        };
        let added = sink.add_cells(side, heads);
        filled_value(sink, added)
    }

    fn add_cells(&mut self, side: &OneSide, heads: &[i64]) -> Result<(), AllocError> {
        let lowered = side.heads_below(heads, |_| 1)?;
        for (cell, head) in heads.iter().enumerate() {
            self.add(side, cell, *head, lowered.as_slice())?;
        }
        self.settle(side)?;
        self.visits = heads.len() as u64;
        Ok(())
    }

    // Adds the next cell, where `lowered` are the heads of all cells after a fall. It falls if it is not at its floor.
    fn add(
        &mut self,
        side: &OneSide,
        cell: usize,
        head: i64,
        lowered: &[i64],
    ) -> Result<(), AllocError> {
        let falls = !side.is_at_floor(cell, head);
        let sum = clamp_long(side.balance(cell, head, lowered));
        self.spots.push(Spot {
            sum,
            rate: 0,
            head,
            burnt_at: if falls { NEVER } else { 0 },
            until: 0,
        })?;
        self.edge.set_if(cell, true);
        self.members = self.members.saturating_add(falls as u64);
        if falls && sum >= 0 {
            self.leaving.push(label(cell))?;
        }
        Ok(())
    }

    /// Whether all cells rise again.
    pub fn is_empty(&self) -> bool {
        self.members == 0
    }

    /// The cells that have left and not joined again, in their order: each rises by what those before it give.
    pub fn last_order(&self, alloc: Global) -> Result<Vec<u32>, AllocError> {
        let mut order = Vec::with_capacity(alloc, self.spots.len())?;
        for (place, cell) in self.order.iter().enumerate() {
            if self.spot(*cell as usize).burnt_at == label(place.saturating_add(1)) {
                order.push(*cell)?;
            }
        }
        Ok(order)
    }

    fn spot(&self, cell: usize) -> Spot {
        self.spots.get(cell).copied().unwrap_or_default()
    }

    // Finds anew how the sum of a cell changes by the next unit: until it comes to its floor, or a flow bends.
    fn renew_rate(&self, side: &OneSide, cell: usize, spot: &mut Spot) {
        let row = side.links.row(cell);
        spot.rate = 0;
        spot.until = NEVER;
        if spot.falls() {
            let own = self.depth.head_of(spot).wrapping_sub(1);
            for known in side.knowns(&row) {
                let above = own.wrapping_sub(known.head);
                spot.add_rate(known.branch.unit_loss(above), self.depth.end_of(above));
            }
            if row.is_straight() {
                let way = spot.head.saturating_sub(side.floor(cell));
                spot.add_rate(0, self.depth.within(way));
            } else {
                let ramps = side.ramps(&row).iter();
                let fall = ramps.fold(0_i64, |sum, ramp| sum.saturating_add(ramp.fall(own)));
                spot.add_rate(fall, 0);
            }
        }
        for link in row.links {
            let other = self.spot(link.cell as usize);
            self.depth.add_flow(Branch::of(link), spot, &other);
        }
    }

    // Writes a cell, and lists it if it is at the edge, is to join the set or is to leave it.
    fn write(&mut self, cell: u32, spot: Spot) -> Result<(), AllocError> {
        self.edge.set_if(cell as usize, spot.is_at_edge());
        put(self.spots.as_mut_slice(), cell as usize, spot);
        if spot.falls() && spot.sum >= 0 {
            self.leaving.push(cell)?;
        }
        if !spot.falls() && spot.sum < 0 {
            self.joining.push(cell)?;
        }
        Ok(())
    }

    // A cell at the edge falls by a unit, or others beside it do.
    fn visit(&mut self, side: &OneSide, cell: usize) -> Result<(), AllocError> {
        let mut spot = self.spot(cell);
        if spot.until <= self.depth.units.saturating_add(1) {
            self.renew_rate(side, cell, &mut spot);
            if spot.falls() {
                self.leaving.push(label(cell))?;
            }
        }
        spot.sum = spot.sum.saturating_add(spot.rate);
        self.visits = self.visits.saturating_add(1);
        self.write(label(cell), spot)
    }

    // A cell joins the set, if it would not rise again by what those give that have burnt before it.
    fn join(&mut self, side: &OneSide, cell: usize) -> Result<(), AllocError> {
        let mut spot = self.spot(cell);
        if spot.falls() || spot.sum >= 0 || side.is_at_floor(cell, spot.head) {
            return Ok(());
        }
        let then = spot.burnt_at;
        spot.head = spot.head.wrapping_add(self.depth.units as i64);
        spot.burnt_at = NEVER;
        spot.until = 0;
        for link in side.links.at(cell) {
            let mut near = self.spot(link.cell as usize);
            self.depth
                .join_beside(Branch::of(link), &mut spot, then, &mut near);
            self.write(link.cell, near)?;
        }
        self.members = self.members.saturating_add(1);
        self.visits = self.visits.saturating_add(1);
        self.write(label(cell), spot)
    }

    // A cell leaves the set, if it would rise again, and stays where it is.
    fn leave(&mut self, side: &OneSide, cell: usize) -> Result<(), AllocError> {
        let mut spot = self.spot(cell);
        let own = self.depth.head_of(&spot);
        if !spot.falls() || spot.sum < 0 && !side.is_at_floor(cell, own) {
            return Ok(());
        }
        self.order.push(label(cell))?;
        spot.head = own;
        spot.burnt_at = label(self.order.len());
        spot.until = 0;
        for link in side.links.at(cell) {
            let mut near = self.spot(link.cell as usize);
            self.depth.leave_beside(Branch::of(link), &spot, &mut near);
            self.write(link.cell, near)?;
        }
        self.members = self.members.saturating_sub(1);
        self.visits = self.visits.saturating_add(1);
        self.write(label(cell), spot)
    }

    // Cells join the set while they would not rise again, and then leave it while they would.
    fn settle(&mut self, side: &OneSide) -> Result<(), AllocError> {
        for _ in 0..u64::MAX {
            let Some(cell) = self.joining.pop() else {
                break;
            };
            self.join(side, cell as usize)?;
        }
        for _ in 0..u64::MAX {
            let Some(cell) = self.leaving.pop() else {
                break;
            };
            self.leave(side, cell as usize)?;
        }
        Ok(())
    }

    fn visit_word(&mut self, side: &OneSide, word: usize) -> Result<(), AllocError> {
        let mut sweep = Sweep::new(word, false);
        for _ in 0..CELLS {
            let Some(cell) = self.edge.take_next(&mut sweep) else {
                break;
            };
            self.visit(side, cell)?;
        }
        Ok(())
    }

    // The set falls by a unit.
    fn fall(&mut self, side: &OneSide) -> Result<(), AllocError> {
        for word in 0..self.edge.len() {
            if self.edge.has_any(word) {
                self.visit_word(side, word)?;
            }
        }
        self.depth.units = self.depth.units.saturating_add(1);
        self.settle(side)
    }

    /// Lowers the heads: the set falls until it is empty, or has fallen as far as it may. Returns by how many units.
    pub fn fall_through(&mut self, side: &OneSide, heads: &mut [i64]) -> Result<u32, AllocError> {
        for _ in 0..self.depth.last {
            if self.is_empty() {
                break;
            }
            self.fall(side)?;
        }
        for (head, spot) in heads.iter_mut().zip(self.spots.as_slice()) {
            *head = self.depth.head_of(spot);
        }
        Ok(self.depth.units)
    }
}
