// What the cells of each component have together.
ghost use Rattle.std.specs.Prelude.{◌≡◌, ℕ, ◌<◌, ◌^◌, ◌↔◌, max, length, IfOk, IsTrue, Some, slice_index, ◌+ℤ◌, ◌<ℤ◌, pos, cond};
ghost use Rattle.step_problem.specs.{IsMagnitudeAtMost, entries_at};
ghost use Rattle.cell_balance.specs.{sum_inside, deep_low};
ghost use Rattle.barrier_vector.specs.{mark_at, is_label, has_label, flow_sum, sum_at, longest_at, greatest_inside};

use crate::flows::deep_flow;
use std::alloc::{AllocError, Global};
use step_problem::Problem;

// 2^64
const UNIT: i128 = 18_446_744_073_709_551_616;

/// The sum of the flows of up to 2^32 cells, which one word cannot hold, and the longest of their paths. `high` counts units of 2^64, `low` is the rest.
#[derive(Clone, Copy)]
pub(crate) struct Total {
    pub high: i128,
    pub low: u64,
    pub longest: u64,
}

impl Total {
    // The lower word and a flow.
    fn rest(self, flow: i128) -> i128
        requires { IsMagnitudeAtMost flow (2 ^ 125) }
        ensures { result ≡ pos self.low +ℤ flow }
    {
        self.low as i128 + flow
    }

    // With the flow and the path of a cell more.
    fn plus(self, flow: i128, path: u64) -> Total
        requires sum { IsMagnitudeAtMost (flow_sum self) (2 ^ 157) }
        requires flow { IsMagnitudeAtMost flow (2 ^ 125) }
        ensures sum { flow_sum result ≡ flow_sum self +ℤ flow }
        ensures longest { result.longest ≡ max self.longest path }
    {
        let rest = self.rest(flow);
        Total {
            high: self.high + rest.div_euclid(UNIT),
            low: rest.rem_euclid(UNIT) as u64,
            longest: self.longest.max(path),
        }
    }

    pub(crate) fn is_positive(&self) -> bool
        ensures { IsTrue result ↔ (pos 0 <ℤ flow_sum self.now) }
    {
        let low = self.low;
        if self.high < 0 {
            false
        } else {
            self.high > 0 || low > 0
        }
    }
}

// Adds a cell to the total with its label, if it has a label.
fn add_to(totals: &mut [Total], label: Option<u32>, flow: i128, path: u64)
    requires label { (m : ℕ) → label ≡ Some m → m < length totals.old }
    requires sums { (m : ℕ) → IsMagnitudeAtMost (sum_at totals.old m) (2 ^ 157) }
    requires flow { IsMagnitudeAtMost flow (2 ^ 125) }
    ensures sums { (m : ℕ) → sum_at totals.new m ≡ sum_at totals.old m +ℤ cond (is_label label m) flow (pos 0) }
    ensures paths { (m : ℕ) → longest_at totals.new m ≡ max (longest_at totals.old m) (cond (is_label label m) path 0) }
{
    match label {
        Some(m) => totals[m as usize] = totals[m as usize].plus(flow, path),
        None => {}
    }
}

/// By label, the sum of the deep flows of the cells with that label, and the longest of their paths.
pub(crate) fn component_totals(
    alloc: Global,
    p: &Problem,
    labels: &[Option<u32>],
    paths: &[u64],
) -> Result<Vec<Total>, AllocError>
    requires labels_whole { length labels.now ≡ length p.now }
    requires paths_whole { length paths.now ≡ length p.now }
    requires labels { (k m : ℕ) → mark_at labels.now k ≡ Some m → m < length p.now }
    ensures whole { IfOk result (λ t. length t.items ≡ length p.now) }
    ensures sums { IfOk result (λ t. (m : ℕ) → sum_at t.items m ≡ sum_inside (length p.now) (has_label labels.now m) (λ k. deep_low (entries_at p.now k))) }
    ensures paths { IfOk result (λ t. (m : ℕ) → longest_at t.items m ≡ greatest_inside (length p.now) (has_label labels.now m) (slice_index paths.now)) }
{
    p.recall_conditions();
    let none = Total {
        high: 0,
        low: 0,
        longest: 0,
    };
    let mut totals = vec![in alloc; none; p.len()]?;
    for c in 0..p.len() {
        add_to(&mut totals, labels[c], deep_flow(p.cell(c)), paths[c]);
    }
    Ok(totals)
}
