// Elevations in units of 10^-18.
ghost use Rattle.std.specs.Prelude.{◌≡◌, ◌≤◌, ◌^◌, ℤ, neg_ℤ, pos, unsigned_abs};
ghost use Rattle.decimal_input.specs.{IsDec, IsSignedCeiling, IsSignedFloor, number};
ghost use Rattle.scaled_decimal.specs.{Lower, Upper};
ghost use Rattle.step_problem.specs.{IsMagnitudeAtMost};
ghost use Rattle.conductance_bounds.specs.{units_at};

use decimal_input::dec::Dec;
use decimal_input::units::{ceil_at, floor_at};

// The limit of every number of units.
const LIMIT: i128 = 1 << 126;

/// The floor of an elevation. Where it reaches the limit it is minus the limit.
pub(crate) fn floor_of(x: Dec) -> i128
    requires number { IsDec x }
    requires low { (z : ℤ) → IsSignedFloor z (number x) 18 → 2 ^ 126 ≤ unsigned_abs z → z ≡ neg_ℤ (pos (2 ^ 126)) }
    ensures floor { result ≡ units_at Lower x 18 }
    ensures range { IsMagnitudeAtMost result (2 ^ 126) }
{
    floor_at(x, 18).unwrap_or(-LIMIT)
}

/// The ceiling of an elevation. Where it reaches the limit it is the limit.
pub(crate) fn ceiling_of(x: Dec) -> i128
    requires number { IsDec x }
    requires high { (z : ℤ) → IsSignedCeiling z (number x) 18 → 2 ^ 126 ≤ unsigned_abs z → z ≡ pos (2 ^ 126) }
    ensures ceiling { result ≡ units_at Upper x 18 }
    ensures range { IsMagnitudeAtMost result (2 ^ 126) }
{
    ceil_at(x, 18).unwrap_or(LIMIT)
}
