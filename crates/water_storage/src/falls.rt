// Falls between heads before and after a step: of the heads, and of the lesser and the greater of head and top.
ghost use Rattle.std.specs.Prelude.{◌≡◌, ◌-◌, ◌^◌, ◌-ℤ◌};
ghost use Rattle.std.specs.Int.{int_max, int_min};
ghost use Rattle.step_problem.specs.{IsHead, IsMagnitudeAtMost};
ghost use Rattle.water_storage.specs.{IsTop, both_of, fall_on, greater_bound, lesser_bound};

use crate::tops::Top;
use step_problem::{Bound, Side};

fn lesser(head: i64, top: i128) -> i128
    ensures { result ≡ int_min head top }
{
    (head as i128).min(top)
}

fn greater(head: i64, top: i128) -> i128
    ensures { result ≡ int_max head top }
{
    (head as i128).max(top)
}

fn difference(from: i128, to: i128) -> i64
    requires { IsMagnitudeAtMost (from -ℤ to) (2 ^ 63 - 1) }
    ensures { result ≡ from -ℤ to }
{
    (from - to) as i64
}

/// The fall from the head before a step to the one after it, on a side.
pub(crate) fn fall(side: Side, old: Bound, new: Bound) -> i64
    requires old { (IsHead old.low) × (IsHead old.high) }
    requires new { (IsHead new.low) × (IsHead new.high) }
    ensures { result ≡ fall_on side old new }
{
    match side {
        Side::Low => old.low - new.high,
        Side::High => old.high - new.low,
    }
}

/// The fall of the lesser of head and top.
pub(crate) fn lesser_fall(side: Side, old: Bound, new: Bound, top: Top) -> i64
    requires old { (IsHead old.low) × (IsHead old.high) }
    requires new { (IsHead new.low) × (IsHead new.high) }
    requires top { IsTop (both_of top.low top.high) }
    ensures { result ≡ fall_on side (lesser_bound old (both_of top.low top.high)) (lesser_bound new (both_of top.low top.high)) }
{
    match side {
        Side::Low => difference(lesser(old.low, top.low), lesser(new.high, top.high)),
        Side::High => difference(lesser(old.high, top.high), lesser(new.low, top.low)),
    }
}

/// The fall of the greater of head and top.
pub(crate) fn greater_fall(side: Side, old: Bound, new: Bound, top: Top) -> i64
    requires old { (IsHead old.low) × (IsHead old.high) }
    requires new { (IsHead new.low) × (IsHead new.high) }
    requires top { IsTop (both_of top.low top.high) }
    ensures { result ≡ fall_on side (greater_bound old (both_of top.low top.high)) (greater_bound new (both_of top.low top.high)) }
{
    match side {
        Side::Low => difference(greater(old.low, top.low), greater(new.high, top.high)),
        Side::High => difference(greater(old.high, top.high), greater(new.low, top.low)),
    }
}
