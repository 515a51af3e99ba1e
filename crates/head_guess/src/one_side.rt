// One side of a problem.
ghost use Rattle.step_problem.specs.{IsHead};

use crate::branch::{Branch, Known, head_on};
use crate::links::{Links, Row};
use crate::ramp::{Ramp, add_ramps};
use multigrid::numbers::{at, filled_value};
use star_mesh::Pattern;
use std::alloc::{AllocError, Global};
use step_problem::problem::HEAD_LIMIT;
use step_problem::{Barrier, Cell, Problem, Side};

const LIMIT: i128 = HEAD_LIMIT as i128;

/// The problem of a step, with its barrier and its links.
#[derive(Drop)]
pub struct Step<'a> {
    pub alloc: Global,
    pub problem: &'a Problem,
    pub barrier: &'a Barrier,
    pub links: &'a Links<'a>,
    /// The pattern of the links, if elimination pays.
    pub pattern: Option<&'a Pattern>,
}

/// One side of a problem, turned so that heads rise: the lower heads above their floor, or the upper heads with
/// the opposite sign, whose floor is the ceiling.
#[derive(Drop)]
pub struct OneSide<'a> {
    pub alloc: Global,
    pub side: Side,
    pub links: &'a Links<'a>,
    /// The pattern of the links, if elimination pays.
    pub pattern: Option<&'a Pattern>,
    problem: &'a Problem,
    floor: Vec<i64>,
    knowns: Vec<Known>,
    ramps: Vec<Ramp>,
    // The constant flows into each cell, where they are copied as the links are.
    inflows: Vec<i128>,
}

/// A head in range, with the opposite sign on the upper side.
pub fn turned_head(side: Side, head: i64) -> i64
    ensures { IsHead result }
{
    let head = head.clamp(-HEAD_LIMIT, HEAD_LIMIT);
    match side {
        Side::Low => head,
        Side::High => -head,
    }
}

// Adds a cell's branches to known heads.
fn add_knowns(knowns: &mut Vec<Known>, side: Side, cell: &Cell) -> Result<(), AllocError> {
    for fixed in &cell.fixed {
        knowns.push(Known {
            branch: Branch::new(fixed.lo, fixed.hi),
            head: head_on(side, fixed.head_lo, fixed.head_hi),
        })?;
    }
    Ok(())
}

// The constant flows into a cell.
fn inflow_of(side: Side, cell: &Cell) -> i128 {
    let flows = cell.flows.iter();
    match side {
        Side::Low => flows.fold(0_i128, |sum, flow| sum.wrapping_add(flow.lo)),
        Side::High => flows.fold(0_i128, |sum, flow| sum.wrapping_sub(flow.hi)),
    }
}

impl OneSide<'_> {
    /// A side of a step's problem, above the floor or below the ceiling.
    pub fn new<'a>(step: &Step<'a>, side: Side) -> Result<OneSide<'a>, AllocError> {
        let alloc = step.alloc;
        let mut one_side = OneSide {
            alloc,
            side,
            links: step.links,
            pattern: step.pattern,
            problem: step.problem,
            floor: Vec::with_capacity(alloc, step.problem.len())?,
            knowns: Vec::new(alloc),
            ramps: Vec::new(alloc),
            inflows: Vec::new(alloc),
        };
        let added = one_side.add_cells(step);
        filled_value(one_side, added)
    }

    // Adds the floor, the branches and the flows of each cell.
    fn add_cells(&mut self, step: &Step) -> Result<(), AllocError> {
        let (side, problem, barrier) = (self.side, step.problem, step.barrier);
        for cell in 0..problem.len() {
            let limit = match side {
                Side::Low => at(barrier.floor.as_slice(), cell),
                Side::High => at(barrier.ceiling.as_slice(), cell),
            };
            self.floor.push(turned_head(side, limit))?;
            let cell = problem.cell(cell);
            add_knowns(&mut self.knowns, side, cell)?;
            add_ramps(&mut self.ramps, side, cell)?;
            if self.links.are_copied() {
                self.inflows.push(inflow_of(side, cell))?;
            }
        }
        Ok(())
    }

    pub fn len(&self) -> usize {
        self.links.len()
    }

    // The constant flows into a cell.
    fn inflow(&self, cell: usize) -> i128 {
        match self.inflows.get(cell) {
            Some(inflow) => *inflow,
            None if cell < self.problem.len() => inflow_of(self.side, self.problem.cell(cell)),
            None => 0,
        }
    }

    /// A cell's branches to known heads.
    pub fn knowns(&self, row: &Row) -> &[Known] {
        row.knowns.of(self.knowns.as_slice())
    }

    /// A cell's rivers, drains and evaporations.
    pub fn ramps(&self, row: &Row) -> &[Ramp] {
        row.ramps.of(self.ramps.as_slice())
    }

    /// The balance of a cell at its own head and the heads of the cells that it is linked with, without its ramps.
    pub fn straight_balance(&self, cell: usize, row: &Row, own: i64, heads: &[i64]) -> i128 {
        let mut sum = self.inflow(cell);
        for link in row.links {
            let rise = at(heads, link.cell as usize).wrapping_sub(own);
            sum = sum.wrapping_add(Branch::of(link).inflow(rise));
        }
        for known in self.knowns(row) {
            sum = sum.wrapping_add(known.branch.inflow(known.head.wrapping_sub(own)));
        }
        sum
    }

    /// The balance of a cell: the lower one, or the upper one with the opposite sign. It falls in the cell's own head, and the cell may rise
    /// where it is not negative.
    pub fn balance(&self, cell: usize, own: i64, heads: &[i64]) -> i128 {
        let row = self.links.row(cell);
        let mut sum = self.straight_balance(cell, &row, own, heads);
        if row.is_straight() {
            return sum;
        }
        for ramp in self.ramps(&row) {
            sum = sum.wrapping_add(ramp.flow(own));
        }
        sum
    }

    /// The floor of a cell's head.
    pub fn floor(&self, cell: usize) -> i64 {
        at(self.floor.as_slice(), cell)
    }

    /// Whether a cell whose head this is can't fall.
    pub fn is_at_floor(&self, cell: usize, head: i64) -> bool {
        head <= self.floor(cell)
    }

    /// A balance and its slope, or nothing for a cell that would fall below its floor or rise beyond the range of heads: it is fixed there.
    pub fn piece_if_free(&self, cell: usize, head: i64, piece: (i128, i64)) -> (i128, i64) {
        let is_at_floor = head == self.floor(cell) && piece.0 < 0;
        if is_at_floor || head == HEAD_LIMIT && piece.0 > 0 {
            (0, 0)
        } else {
            piece
        }
    }

    /// The nearest head that is in range and not below the floor.
    pub fn above_floor(&self, cell: usize, head: i128) -> i64 {
        let head = head.clamp(-LIMIT, LIMIT) as i64;
        head.max(self.floor(cell))
    }

    /// These heads, lowered by a way that depends on the cell; none below the floor.
    pub fn heads_below<F: Fn(usize) -> i128>(
        &self,
        heads: &[i64],
        way: F,
    ) -> Result<Vec<i64>, AllocError>
        requires { F.IsAlwaysCallable way }
    {
        let mut lower = Vec::with_capacity(self.alloc, heads.len())?;
        for (cell, head) in heads.iter().enumerate() {
            lower.push(self.above_floor(cell, (*head as i128).saturating_sub(way(cell))))?;
        }
        Ok(lower)
    }
}
