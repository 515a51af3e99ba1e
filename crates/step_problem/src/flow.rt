// The flow over a conductance that is known by two bounds.
ghost use Rattle.std.specs.Prelude.{◌≡◌, ◌≤◌, ◌*◌, ◌^◌};
ghost use Rattle.step_problem.specs.{branch_flow, IsMagnitudeAtMost};

use crate::heads::Side;

/// The bound on a side of the flow over a conductance from `lo` to `hi`, where the head at its other end is higher by `difference`.
pub fn branch_flow(side: Side, lo: u64, hi: u64, difference: i64) -> i128
    requires { lo ≤ hi }
    ensures value { result ≡ branch_flow side lo hi difference }
    ensures within { IsMagnitudeAtMost result (hi * 2 ^ 63) }
{
    let conductance = if difference >= 0 {
        side.bound_of(lo, hi)
    } else {
        side.bound_of(hi, lo)
    };
    conductance as i128 * difference as i128
}
