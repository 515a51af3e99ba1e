// Decimals of 18 digits from numbers of the input and from whole numbers of units.

ghost use Rattle.std.specs.Prelude.{false, ◌≡◌, ◌^◌, ◌≤◌, ◌<◌, pos, neg_ℤ, ◌+ℤ◌, ◌-ℤ◌};
ghost use Rattle.decimal_input.specs.{IsDec, size, scaled_ratio};
ghost use Rattle.decimal_input.specs.Ratios.{Same};
ghost use Rattle.scaled_decimal.specs.{IsSd, value, IsDown, IsUp, IsNear, HasSize, IsWithin};

use crate::decimal::{LEAST, LIMIT, Sd, ZERO};
use crate::power::behind_18_digits;
use crate::rounding::{round_dn, round_up};
use decimal_input::dec::Dec;

// The least number of 15 digits.
const FOUR_ZEROS_FIT: u64 = 100_000_000_000_000;

// The digits with zeros appended until there are 18.
fn to_digits(digits: u64, exponent: i16) -> Sd
    requires positive { 0 < digits }
    requires few { digits < 10 ^ 18 }
    requires range { IsNear exponent 10000 }
    ensures decimal { IsSd result }
    ensures same { Same (value result) (scaled_ratio digits exponent) }
    ensures size { HasSize result (exponent -ℤ pos 17) exponent }
{
    let mut m = digits;
    let mut e = exponent;
    while m < FOUR_ZEROS_FIT {
        m *= 10_000;
        e -= 4;
    }
    while m < LEAST {
        m *= 10;
        e -= 1;
    }
    Sd { m, e }
}

/// The number itself, exactly.
pub fn of_dec(a: Dec) -> Sd
    requires number { IsDec a }
    requires sign { a.neg ≡ false }
    ensures decimal { IsSd result }
    ensures same { Same (value result) (size a) }
    ensures size { 0 < a.digits → HasSize result (a.exp -ℤ pos 17) a.exp }
    ensures exponent { IsWithin result.e (a.exp -ℤ pos 17) a.exp }
{
    if a.digits == 0 {
        ZERO
    } else {
        to_digits(a.digits, a.exp)
    }
}

/// The greatest decimal of 18 digits not above units * 10 ^ -places.
pub fn of_units_dn(units: u128, places: u16) -> Sd
    requires places { places ≤ 10000 }
    ensures nearest { IsDown result (scaled_ratio units (neg_ℤ (pos places))) }
    ensures exact { units < 10 ^ 18 → Same (value result) (scaled_ratio units (neg_ℤ (pos places))) }
    ensures size { 0 < units → HasSize result (neg_ℤ (pos places) -ℤ pos 17) (neg_ℤ (pos places) +ℤ pos 22) }
    ensures exponent { IsWithin result.e (neg_ℤ (pos places) -ℤ pos 17) (neg_ℤ (pos places) +ℤ pos 22) }
{
    let e = -(places as i16);
    if units == 0 {
        ZERO
    } else if units < LIMIT as u128 {
        to_digits(units as u64, e)
    } else {
        round_dn(units, behind_18_digits(units), e)
    }
}

/// The least decimal of 18 digits not below units * 10 ^ -places.
pub fn of_units_up(units: u128, places: u16) -> Sd
    requires places { places ≤ 10000 }
    ensures nearest { IsUp result (scaled_ratio units (neg_ℤ (pos places))) }
    ensures exact { units < 10 ^ 18 → Same (value result) (scaled_ratio units (neg_ℤ (pos places))) }
    ensures size { 0 < units → HasSize result (neg_ℤ (pos places) -ℤ pos 17) (neg_ℤ (pos places) +ℤ pos 22) }
    ensures exponent { IsWithin result.e (neg_ℤ (pos places) -ℤ pos 17) (neg_ℤ (pos places) +ℤ pos 22) }
{
    let e = -(places as i16);
    if units == 0 {
        ZERO
    } else if units < LIMIT as u128 {
        to_digits(units as u64, e)
    } else {
        round_up(units - 1, behind_18_digits(units), e)
    }
}
