// Slopes of the cells' balances in their own heads.
use crate::branch::Branch;
use crate::links::Row;
use crate::one_side::OneSide;
use crate::ramp::Bends;
use multigrid::numbers::at;
use std::alloc::AllocError;

impl OneSide<'_> {
    // The slope of a balance without its ramps: the greater fall to either side, or nearly that where conductances are known well.
    fn straight_slope(&self, row: &Row, own: i64, heads: &[i64]) -> i64 {
        if row.is_narrow() {
            return row.greatest;
        }
        let (mut left, mut right) = (0_i64, 0_i64);
        for link in row.links {
            let branch = Branch::of(link);
            let above = own.wrapping_sub(at(heads, link.cell as usize));
            left = left.saturating_add(branch.unit_loss(above.wrapping_sub(1)));
            right = right.saturating_add(branch.unit_loss(above));
        }
        for known in self.knowns(row) {
            let above = own.wrapping_sub(known.head);
            left = left.saturating_add(known.branch.unit_loss(above.wrapping_sub(1)));
            right = right.saturating_add(known.branch.unit_loss(above));
        }
        left.max(right)
    }

    /// How far a balance falls when its cell's head rises by a unit from `own`, where `around` are the heads of the cells that it is linked with.
    pub fn unit_fall<F: Fn(usize) -> i64>(&self, row: &Row, own: i64, around: F) -> i64
        requires { F.IsAlwaysCallable around }
    {
        let mut sum = 0_i64;
        for link in row.links {
            let above = own.wrapping_sub(around(link.cell as usize));
            sum = sum.saturating_add(Branch::of(link).unit_loss(above));
        }
        for known in self.knowns(row) {
            sum = sum.saturating_add(known.branch.unit_loss(own.wrapping_sub(known.head)));
        }
        for ramp in self.ramps(row) {
            sum = sum.saturating_add(ramp.fall(own));
        }
        sum
    }

    /// How far a balance falls when its cell's head rises by `units` from `own`, but for what its links take.
    #[inline]
    pub fn fall_beside_links(&self, row: &Row, own: i64, units: i64) -> i128 {
        let mut sum = 0_i128;
        for known in self.knowns(row) {
            let above = own.wrapping_sub(known.head);
            sum = sum.wrapping_add(known.branch.loss(above, units));
        }
        if row.is_straight() {
            return sum;
        }
        let end = own.wrapping_add(units);
        for ramp in self.ramps(row) {
            sum = sum
                .wrapping_add(ramp.flow(own))
                .wrapping_sub(ramp.flow(end));
        }
        sum
    }

    // What the balance and the slope of a cell gain if each branch to a known head is a line, as it is by the head `top`.
    fn line_gain(&self, row: &Row, own: i64, top: i64) -> (i128, i64) {
        let (mut balance, mut slope) = (0_i128, 0_i64);
        for known in self.knowns(row) {
            let branch = known.branch;
            let line = branch.line(self.side, known.head.wrapping_sub(top));
            let above = own.wrapping_sub(known.head);
            let rise = known.head.wrapping_sub(own);
            balance = balance
                .wrapping_add(line.inflow(rise))
                .wrapping_sub(branch.inflow(rise));
            slope = slope
                .saturating_add(line.unit_loss(above))
                .saturating_sub(branch.unit_loss(above));
        }
        (balance, slope)
    }

    /// The balance of a cell and its slope, where its ramps and its branches to known heads are lines by these bends alone.
    pub fn piece(&self, cell: usize, heads: &[i64], bends: Bends) -> (i128, i64) {
        let row = self.links.row(cell);
        let own = at(heads, cell);
        let mut balance = self.straight_balance(cell, &row, own, heads);
        let (gain, more) = self.line_gain(&row, own, bends.top);
        balance = balance.wrapping_add(gain);
        let mut slope = self.straight_slope(&row, own, heads).saturating_add(more);
        for ramp in self.ramps(&row) {
            let (flow, fall) = ramp.piece(self.side, own, bends);
            balance = balance.wrapping_add(flow);
            slope = slope.saturating_add(fall);
        }
        (balance, slope.max(1))
    }

    /// Whether a ramp of a cell bends within these units of its head.
    pub fn bends_within(&self, cell: usize, head: i64, units: i64) -> bool {
        self.ramps(&self.links.row(cell))
            .iter()
            .any(|ramp| ramp.bends_within(head, units))
    }

    /// Whether a ramp of a cell or a branch to a known head is another line by one of two heads than by the other.
    pub fn changes_between(&self, cell: usize, one: i64, other: i64) -> bool {
        let row = self.links.row(cell);
        let mut ramps = self.ramps(&row).iter();
        let mut knowns = self.knowns(&row).iter();
        ramps.any(|ramp| ramp.changes_between(self.side, one, other))
            || knowns.any(|known| {
                let (rise, other_rise) = (
                    known.head.wrapping_sub(one),
                    known.head.wrapping_sub(other),
                );
                known.branch.bends_between(self.side, rise, other_rise)
            })
    }

    /// The slope of each balance: the greater one to either side of the cell's head.
    pub fn slopes(&self, heads: &[i64]) -> Result<Vec<i64>, AllocError> {
        let mut slopes = Vec::with_capacity(self.alloc, heads.len())?;
        for (cell, own) in heads.iter().enumerate() {
            let row = self.links.row(cell);
            let (mut left, mut right) = (0_i64, 0_i64);
            for ramp in self.ramps(&row) {
                left = left.saturating_add(ramp.fall(own.saturating_sub(1)));
                right = right.saturating_add(ramp.fall(*own));
            }
            let slope = self.straight_slope(&row, *own, heads);
            slopes.push(slope.saturating_add(left.max(right)).max(1))?;
        }
        Ok(slopes)
    }
}
