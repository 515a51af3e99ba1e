// What both sides need of all cells, found in one pass over them.
ghost use Rattle.std.specs.Prelude.{◌≡◌, ◌<◌, ◌+◌, length, List, IfOk, OnOk, pos};
ghost use Rattle.std.specs.Option.{unwrap_or};
ghost use Rattle.step_problem.specs.declared.heads.Side.{Side};
ghost use Rattle.step_problem.specs.declared.heads.Side.TheVariants.{Low, High};
ghost use Rattle.step_problem.specs.Entries.{Entries};
ghost use Rattle.barrier_vector.specs.{IsOutline};

use crate::flows::need_of;
use crate::marks::{cell_mark, outer_mark};
use crate::roots::greatest_anchor;
use std::alloc::{AllocError, Global};
use step_problem::{Problem, Side};

// 2^126
const MOST_NEED: u128 = 85_070_591_730_234_615_865_843_651_857_942_052_864;

/// One side of the cells: the outermost mark, the lack or the surplus of flow, at most 2^126, and the greatest anchor of each cell.
#[derive(Drop)]
pub(crate) struct Outline {
    pub mark: Option<i64>,
    pub need: u128,
    pub anchors: Vec<u64>,
}

impl Outline {
    fn new(alloc: Global, cells: usize) -> Result<Outline, AllocError>
        ensures { IfOk result (λ o. (side : Side) (p : List Entries) → IsOutline side p 0 o.mark o.need o.anchors.items) }
    {
        Ok(Outline {
            mark: None,
            need: 0,
            anchors: Vec::with_capacity(alloc, cells)?,
        })
    }

    // Adds cell c to the cells before it.
    fn add(&mut self, side: Side, p: &Problem, c: usize) -> Result<(), AllocError>
        requires cell { c < length p.now }
        requires before { IsOutline side p.now c self.old.mark self.old.need self.old.anchors.items }
        ensures { OnOk result (IsOutline side p.now (c + 1) self.new.mark self.new.need self.new.anchors.items) }
    {
        p.recall_conditions();
        let cell = p.cell(c);
        self.mark = outer_mark(side, self.mark, cell_mark(side, cell));
        self.need = (self.need + need_of(side, cell)).min(MOST_NEED);
        self.anchors.push(greatest_anchor(side, cell))?;
        Ok(())
    }

    /// The outermost mark, 0 if there is none.
    pub(crate) fn base(&self) -> i64
        ensures { result ≡ unwrap_or self.now.mark (pos 0) }
    {
        self.mark.unwrap_or(0)
    }
}

/// The outlines of both sides.
#[derive(Drop)]
pub(crate) struct Outlines {
    pub low: Outline,
    pub high: Outline,
}

/// The outlines of both sides, in one pass over the cells.
pub(crate) fn outline_sides(alloc: Global, p: &Problem) -> Result<Outlines, AllocError>
    ensures low { IfOk result (λ o. IsOutline Low p.now (length p.now) o.low.mark o.low.need o.low.anchors.items) }
    ensures high { IfOk result (λ o. IsOutline High p.now (length p.now) o.high.mark o.high.need o.high.anchors.items) }
{
    let mut low = Outline::new(alloc, p.len())?;
    let mut high = Outline::new(alloc, p.len())?;
    for c in 0..p.len() {
        low.add(Side::Low, p, c)?;
        high.add(Side::High, p, c)?;
    }
    Ok(Outlines { low, high })
}
