// Whole numbers of units from decimals.

ghost use Rattle.std.specs.Prelude.{◌-◌, ◌^◌, ◌<◌, MatchOption};
ghost use Rattle.scaled_decimal.specs.{IsSd, value};
ghost use Rattle.decimal_input.specs.{IsFloor, IsCeiling, Reaches, Passes};

use crate::decimal::Sd;
use decimal_input::units::units_of;

/// The greatest whole number of units of 10 ^ -s not above the value; none where that is 2 ^ 126 or more.
pub fn floor_units(x: Sd, s: u32) -> Option<u128>
    requires decimal { IsSd x }
    ensures value { MatchOption result (Reaches (2 ^ 126) (value x) s) (λ n. IsFloor n (value x) s × (n < 2 ^ 126)) }
{
    units_of(x.m, x.e, s, false)
}

/// The least whole number of units of 10 ^ -s not below the value; none where that is 2 ^ 126 or more.
pub fn ceil_units(x: Sd, s: u32) -> Option<u128>
    requires decimal { IsSd x }
    ensures value { MatchOption result (Passes (2 ^ 126 - 1) (value x) s) (λ n. IsCeiling n (value x) s × (n < 2 ^ 126)) }
{
    units_of(x.m, x.e, s, true)
}
