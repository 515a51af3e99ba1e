// Sums, rounded down and up.

ghost use Rattle.std.specs.Prelude.{◌<◌, pos, ◌+ℤ◌, ◌≤ℤ◌};
ghost use Rattle.std.specs.Int.{int_min, int_max};
ghost use Rattle.decimal_input.specs.Ratios.{plus};
ghost use Rattle.scaled_decimal.specs.{value, IsDown, IsUp, AreOperands, HasSize, IsWithin};

use crate::decimal::Sd;
use crate::power::{TEN, power_of_ten};
use crate::rounding::{round_dn, round_up};

// The sum of two positive decimals, the greater exponent first.
fn sum_dn(a: Sd, b: Sd) -> Sd
    requires operands { AreOperands a b }
    requires a_positive { 0 < a.m }
    requires b_positive { 0 < b.m }
    requires order { b.e ≤ℤ a.e }
    ensures nearest { IsDown result (plus (value a) (value b)) }
    ensures size { HasSize result a.e (a.e +ℤ pos 1) }
{
    let gap = (a.e - b.e).unsigned_abs() as u32;
    if gap >= 18 {
        // b is less than one unit in the last place of a.
        a
    } else {
        let power = power_of_ten(gap);
        round_dn(a.m as u128 * power.unit + b.m as u128, power, b.e)
    }
}

// The same, rounded up.
fn sum_up(a: Sd, b: Sd) -> Sd
    requires operands { AreOperands a b }
    requires a_positive { 0 < a.m }
    requires b_positive { 0 < b.m }
    requires order { b.e ≤ℤ a.e }
    ensures nearest { IsUp result (plus (value a) (value b)) }
    ensures size { HasSize result a.e (a.e +ℤ pos 1) }
{
    let gap = (a.e - b.e).unsigned_abs() as u32;
    if gap >= 19 {
        // b is less than a tenth of one unit in the last place of a.
        round_up(a.m as u128 * 10, TEN, a.e - 1)
    } else {
        let power = power_of_ten(gap);
        round_up(a.m as u128 * power.unit + b.m as u128 - 1, power, b.e)
    }
}

/// The greatest decimal of 18 digits not above the sum.
pub fn add_dn(a: Sd, b: Sd) -> Sd
    requires operands { AreOperands a b }
    ensures nearest { IsDown result (plus (value a) (value b)) }
    ensures size { 0 < a.m → 0 < b.m → HasSize result (int_max a.e b.e) (int_max a.e b.e +ℤ pos 1) }
    ensures exponent { IsWithin result.e (int_min a.e b.e) (int_max a.e b.e +ℤ pos 1) }
{
    if a.m == 0 {
        b
    } else if b.m == 0 {
        a
    } else if a.e >= b.e {
        sum_dn(a, b)
    } else {
        sum_dn(b, a)
    }
}

/// The least decimal of 18 digits not below the sum.
pub fn add_up(a: Sd, b: Sd) -> Sd
    requires operands { AreOperands a b }
    ensures nearest { IsUp result (plus (value a) (value b)) }
    ensures size { 0 < a.m → 0 < b.m → HasSize result (int_max a.e b.e) (int_max a.e b.e +ℤ pos 1) }
    ensures exponent { IsWithin result.e (int_min a.e b.e) (int_max a.e b.e +ℤ pos 1) }
{
    if a.m == 0 {
        b
    } else if b.m == 0 {
        a
    } else if a.e >= b.e {
        sum_up(a, b)
    } else {
        sum_up(b, a)
    }
}
