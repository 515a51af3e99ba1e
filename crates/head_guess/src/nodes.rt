// Cells with their balances, while heads are raised.
use crate::branch::Branch;
use crate::links::Row;
use crate::marks::Marks;
use crate::one_side::OneSide;
use multigrid::numbers::{at, clamp_long, put, width};
use std::alloc::AllocError;
use step_problem::Link;
use step_problem::problem::HEAD_LIMIT;

/// How far a cell's balance at its head exceeds the least one at which it can rise, and the head that it may reach. Half a line of a
/// processor's cache, since a turn waits for memory.
#[derive(Clone, Copy, Default)]
struct Node {
    excess: i128,
    head: i64,
    cap: i64,
}

impl Node {
    fn can_rise(&self) -> bool {
        (self.excess >= 0) & (self.head < self.cap)
    }

    // The node after a rise that makes its balance fall. It stays there if that was its last one.
    fn after_rise(self, units: i64, fall: i128, is_last: bool) -> Node {
        let head = self.head.wrapping_add(units);
        Node {
            excess: self.excess.wrapping_sub(fall),
            head,
            cap: if is_last { head } else { self.cap },
        }
    }
}

/// All cells' nodes.
#[derive(Drop)]
pub struct Nodes {
    nodes: Vec<Node>,
    // The number of times that each cell may still rise; none where that is not bounded.
    rises: Vec<u32>,
}

// A quotient by a divisor that is not 0, or a little less.
fn quotient(number: i128, divisor: i64) -> i64 {
    let dropped = width(number).saturating_sub(63);
    let leading = i64::try_from(number.wrapping_shr(dropped)).unwrap_or(0);
    let units = leading.checked_div(divisor).unwrap_or(0);
    clamp_long((units as i128).wrapping_shl(dropped.min(63)))
}

impl Nodes {
    /// The nodes of heads that may rise to their caps, if there are any.
    pub fn new(side: &OneSide, heads: &[i64], caps: Option<&[i64]>) -> Result<Nodes, AllocError> {
        let mut nodes = Vec::with_capacity(side.alloc, heads.len())?;
        for (cell, head) in heads.iter().enumerate() {
            let least = side.links.row(cell).least as i128;
            nodes.push(Node {
                excess: side.balance(cell, *head, heads).wrapping_sub(least),
                head: *head,
                cap: caps.map_or(HEAD_LIMIT, |caps| at(caps, cell)),
            })?;
        }
        Ok(Nodes {
            nodes,
            rises: Vec::new(side.alloc),
        })
    }

    /// Bounds how often each cell may rise.
    pub fn bound_rises(&mut self, rises: u32) -> Result<(), AllocError> {
        self.rises.resize(self.nodes.len(), rises)
    }

    /// Writes the heads of all cells.
    pub fn write_heads(&self, heads: &mut [i64]) {
        for (head, node) in heads.iter_mut().zip(self.nodes.as_slice()) {
            *head = node.head;
        }
    }

    /// Whether each cell has risen as often as it may.
    pub fn are_spent(&self, side: &OneSide) -> Result<Vec<bool>, AllocError> {
        self.rises
            .iter()
            .map(|rises| *rises == 0)
            .collect(side.alloc)
    }

    /// The cells that may rise.
    pub fn marks(&self, side: &OneSide) -> Result<Marks, AllocError> {
        let mut marks = Marks::new(side.alloc, self.nodes.len())?;
        for (cell, node) in self.nodes.iter().enumerate() {
            marks.set_if(cell, node.can_rise());
        }
        Ok(marks)
    }

    fn node(&self, cell: usize) -> Node {
        self.nodes.get(cell).copied().unwrap_or_default()
    }

    // By how many units a cell rises, or some fewer: at most to its cap, and to the next bend of its ramps.
    fn units(&self, side: &OneSide, row: &Row, node: &Node) -> i64 {
        let mut greatest = row.greatest;
        let mut cap = node.cap;
        if !row.is_straight() {
            for ramp in side.ramps(row) {
                greatest = greatest.saturating_add(ramp.greatest_fall(node.head));
                cap = cap.min(ramp.bend_above(node.head));
            }
        }
        let (long, balance) = (
            greatest as i128,
            node.excess.wrapping_add(row.least as i128),
        );
        let units = if balance >= long.wrapping_mul(2) {
            quotient(balance, greatest)
        } else {
            let fall = || side.unit_fall(row, node.head, |other| self.node(other).head) as i128;
            (balance >= long || balance >= fall()) as i64
        };
        units.min(cap.wrapping_sub(node.head))
    }

    // Changes the balances of the cells that a cell is linked with for its rise, and marks those that may rise. Returns what the links take
    // from the cell's balance.
    fn spread(&mut self, links: &[Link], head: i64, units: i64, marks: &mut Marks) -> i128 {
        let mut taken = 0_i128;
        for link in links {
            let other = link.cell as usize;
            if let Some(node) = self.nodes.as_mut_slice().get_mut(other) {
                let above = head.wrapping_sub(node.head);
                let branch = Branch::of(link);
                taken = taken.wrapping_add(branch.loss(above, units));
                let gain = branch.gain(above, units);
                node.excess = node.excess.wrapping_add(gain);
                marks.set_if(other, node.can_rise());
            }
        }
        taken
    }

    // The same where the cell rises by one unit.
    fn spread_unit(&mut self, links: &[Link], head: i64, marks: &mut Marks) -> i64 {
        let mut taken = 0_i64;
        for link in links {
            let other = link.cell as usize;
            if let Some(node) = self.nodes.as_mut_slice().get_mut(other) {
                let above = head.wrapping_sub(node.head);
                let branch = Branch::of(link);
                taken = taken.wrapping_add(branch.unit_loss(above));
                let gain = branch.unit_gain(above);
                node.excess = node.excess.wrapping_add(gain as i128);
                marks.set_if(other, node.can_rise());
            }
        }
        taken
    }

    // Counts a rise of a cell. Returns whether it is the last one that it may make.
    fn count_rise(&mut self, cell: usize) -> bool {
        match self.rises.as_mut_slice().get_mut(cell) {
            Some(rises) => {
                *rises = rises.saturating_sub(1);
                *rises == 0
            }
            None => false,
        }
    }

    /// Raises a cell, at most to its cap, and marks the cells that may rise after that. Returns whether it moved.
    pub fn turn(&mut self, side: &OneSide, cell: usize, marks: &mut Marks) -> bool {
        let node = self.node(cell);
        if !node.can_rise() {
            return false;
        }
        let row = side.links.row(cell);
        let units = self.units(side, &row, &node);
        if units <= 0 {
            return false;
        }
        let taken = if units == 1 {
            self.spread_unit(row.links, node.head, marks) as i128
        } else {
            self.spread(row.links, node.head, units, marks)
        };
        let fall = taken.wrapping_add(side.fall_beside_links(&row, node.head, units));
        let is_last = self.count_rise(cell);
        let risen = node.after_rise(units, fall, is_last);
        put(self.nodes.as_mut_slice(), cell, risen);
        marks.set_if(cell, risen.can_rise());
        true
    }
}
