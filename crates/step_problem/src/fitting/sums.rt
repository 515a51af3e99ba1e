// Sums over a cell's entries. Each stops at a cap, so that it can't overflow.
ghost use Rattle.std.specs.Prelude.{◌≡◌, ◌+◌, ◌*◌, ◌^◌, ◌<◌, ◌≤◌, ◌-ℤ◌, ◌↔◌, ℕ, IsTrue, All, Contains, min, sum_by, unsigned_abs};
ghost use Rattle.std.specs.Fn.{FnReturnsAt};
ghost use Rattle.step_problem.specs.{conductance_of, flow_magnitude, magnitude, deep_river, full_rate, RiverFits, EvapFits};
ghost use Rattle.step_problem.specs.declared.heads.Side.TheVariants.{Low, High};

use crate::balance::branch::Branch;
use crate::entry::{Cell, Evap, River};
use crate::heads::Side;
use crate::problem::HEAD_LIMIT;

// The sum of a cell's upper conductances is below this.
const CONDUCTANCE_CAP: u128 = 1 << 60;

// The sum of the magnitudes of its constant and deep flows is below this.
const FLOW_CAP: u128 = 1 << 109;

fn add_capped(sum: u128, more: u128, cap: u128) -> u128
    ensures { result ≡ min (sum + more) cap }
{
    sum.saturating_add(more).min(cap)
}

// The sum of the sizes of entries, at most the cap.
fn sum_capped<E, F: Fn(&E) -> u128>(entries: &[E], cap: u128, size: F) -> u128
    requires { (x : _) → Contains entries.now x.now → F.pre size x }
    ensures value { (of : E → ℕ) → ((x : E) (r : ℕ) → Contains entries.now x → FnReturnsAt F.Fn size x r → r ≡ of x) →
        result ≡ min (sum_by of entries.now) cap }
    ensures capped { result ≤ cap }
{
    let mut sum: u128 = 0;
    for x in entries {
        sum = add_capped(sum, size(x), cap);
    }
    sum
}

/// Whether the upper conductances of a cell's branches sum to less than 2^60 units.
pub fn conductances_fit(cell: &Cell) -> bool
    ensures { IsTrue result ↔ (conductance_of cell.now < 2 ^ 60) }
{
    let links = sum_capped(&cell.links, CONDUCTANCE_CAP, |x| x.hi as u128);
    let fixed = sum_capped(&cell.fixed, CONDUCTANCE_CAP, |x| x.hi as u128);
    let rivers = sum_capped(&cell.rivers, CONDUCTANCE_CAP, |x| x.hi as u128);
    let drains = sum_capped(&cell.drains, CONDUCTANCE_CAP, |x| x.hi as u128);
    let evaps = sum_capped(&cell.evaps, CONDUCTANCE_CAP, |x| x.hi as u128);
    links + fixed + rivers + drains + evaps < CONDUCTANCE_CAP
}

// A river gives its deep flow at the least head, which is below all bottoms.
fn deep_flow(x: &River) -> u128
    requires { RiverFits x.now }
    ensures { result ≡ magnitude (deep_river Low x.now) (deep_river High x.now) }
{
    let low = x.flow_at(Side::Low, -HEAD_LIMIT);
    let high = x.flow_at(Side::High, -HEAD_LIMIT);
    low.unsigned_abs().max(high.unsigned_abs())
}

fn full_rate_of(x: &Evap) -> u128
    requires { EvapFits x.now }
    ensures { result ≡ full_rate x.now }
{
    x.hi as u128 * (x.surf_hi - x.ext_lo).unsigned_abs() as u128
}

/// Whether the magnitudes of a cell's constant flows, of the flows of its rivers where it is dry, and of its full
/// rates of evaporation sum to less than 2^109 units.
pub fn flows_fit(cell: &Cell) -> bool
    requires rivers { All RiverFits cell.now.rivers }
    requires evaps { All EvapFits cell.now.evaps }
    ensures { IsTrue result ↔ (flow_magnitude cell.now < 2 ^ 109) }
{
    let flows = sum_capped(&cell.flows, FLOW_CAP, |x| {
        x.lo.unsigned_abs().max(x.hi.unsigned_abs())
    });
    let rivers = sum_capped(&cell.rivers, FLOW_CAP, deep_flow);
    let evaps = sum_capped(&cell.evaps, FLOW_CAP, full_rate_of);
    flows + rivers + evaps < FLOW_CAP
}
