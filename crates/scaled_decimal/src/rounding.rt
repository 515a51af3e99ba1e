// Rounding a longer number to its leading 18 digits.
ghost use Rattle.std.specs.Prelude.{◌≡◌, ◌+◌, ◌-◌, ◌*◌, ◌^◌, ◌≤◌, ◌<◌, pos, ◌+ℤ◌, ◌-ℤ◌};
ghost use Rattle.decimal_input.specs.{Ratio, over};
ghost use Rattle.decimal_input.specs.Ratios.{times};
ghost use Rattle.scaled_decimal.specs.{IsDown, IsUp, IsNear, AreOperands, HasSize, IsFrom, IsUpTo, value, IsWithin};

use crate::decimal::{LEAST, LIMIT, Sd, ZERO};
use crate::power::{ONE, Power};

/// The leading 18 digits of q, which has `behind.places` digits after them, or one more.
/// Digits of the exact value that q leaves out don't change the result.
pub(crate) fn round_dn(q: u128, behind: Power, e: i16) -> Sd
    requires power { behind.unit ≡ 10 ^ behind.places }
    requires few { behind.places < 22 }
    requires least { 10 ^ 17 * behind.unit ≤ q }
    requires most { q < 10 ^ 19 * behind.unit }
    requires range { IsNear e 25000 }
    ensures nearest { (f : Ratio) → IsFrom q e f → IsDown result f }
    ensures size { HasSize result (e +ℤ pos behind.places) (e +ℤ pos behind.places +ℤ pos 1) }
{
    let front = behind.quotient(q);
    let e = e + behind.places as i16;
    if front < LIMIT {
        Sd { m: front, e }
    } else {
        Sd {
            m: front / 10,
            e: e + 1,
        }
    }
}

/// The least 18-digit decimal that isn't below a value above p and at most p + 1.
pub(crate) fn round_up(p: u128, behind: Power, e: i16) -> Sd
    requires power { behind.unit ≡ 10 ^ behind.places }
    requires few { behind.places < 22 }
    requires digits { 10 ^ 17 ≤ p }
    requires least { 10 ^ 17 * behind.unit ≤ p + 1 }
    requires most { p < (10 ^ 18 - 1) * 10 * behind.unit }
    requires range { IsNear e 25000 }
    ensures nearest { (f : Ratio) → IsUpTo p e f → IsUp result f }
    ensures size { HasSize result (e +ℤ pos behind.places) (e +ℤ pos behind.places +ℤ pos 1) }
{
    let front = behind.quotient(p);
    let e = e + behind.places as i16;
    if front < LIMIT - 1 {
        Sd { m: front + 1, e }
    } else if front == LIMIT - 1 {
        // A carry out of 18 nines adds a digit.
        Sd { m: LEAST, e: e + 1 }
    } else {
        Sd {
            m: front / 10 + 1,
            e: e + 1,
        }
    }
}

// Quotients, rounded down and up.

/// The greatest decimal of 18 digits not above a over b.
pub fn div_dn(a: Sd, b: Sd) -> Sd
    requires operands { AreOperands a b }
    requires divisor { 0 < b.m }
    ensures nearest { IsDown result (over (value a) (value b)) }
    ensures size { 0 < a.m → HasSize result (a.e -ℤ b.e -ℤ pos 18) (a.e -ℤ b.e -ℤ pos 17) }
    ensures exponent { IsWithin result.e (a.e -ℤ b.e -ℤ pos 18) (a.e -ℤ b.e -ℤ pos 17) }
{
    if a.m == 0 {
        ZERO
    } else {
        // The dividend is long enough that the quotient has 18 or 19 digits.
        let quotient = a.m as u128 * LIMIT as u128 / b.m as u128;
        round_dn(quotient, ONE, a.e - b.e - 18)
    }
}

/// The least decimal of 18 digits not below a over b.
pub fn div_up(a: Sd, b: Sd) -> Sd
    requires operands { AreOperands a b }
    requires divisor { 0 < b.m }
    ensures nearest { IsUp result (over (value a) (value b)) }
    ensures size { 0 < a.m → HasSize result (a.e -ℤ b.e -ℤ pos 18) (a.e -ℤ b.e -ℤ pos 17) }
    ensures exponent { IsWithin result.e (a.e -ℤ b.e -ℤ pos 18) (a.e -ℤ b.e -ℤ pos 17) }
{
    if a.m == 0 {
        ZERO
    } else {
        // The quotient lies above `below` and not above `below + 1`, whole or not.
        let below = (a.m as u128 * LIMIT as u128 - 1) / b.m as u128;
        round_up(below, ONE, a.e - b.e - 18)
    }
}

// Products, rounded down and up.

/// A product of two numbers of 18 digits has 35 or 36.
const BEHIND_PRODUCT: Power = Power {
    unit: 100_000_000_000_000_000,
    places: 17,
};

/// The greatest decimal of 18 digits not above the product.
pub fn mul_dn(a: Sd, b: Sd) -> Sd
    requires operands { AreOperands a b }
    ensures nearest { IsDown result (times (value a) (value b)) }
    ensures size { 0 < a.m → 0 < b.m → HasSize result (a.e +ℤ b.e +ℤ pos 17) (a.e +ℤ b.e +ℤ pos 18) }
    ensures exponent { IsWithin result.e (a.e +ℤ b.e +ℤ pos 17) (a.e +ℤ b.e +ℤ pos 18) }
{
    let product = a.m as u128 * b.m as u128;
    if product == 0 {
        ZERO
    } else {
        round_dn(product, BEHIND_PRODUCT, a.e + b.e)
    }
}

/// The least decimal of 18 digits not below the product.
pub fn mul_up(a: Sd, b: Sd) -> Sd
    requires operands { AreOperands a b }
    ensures nearest { IsUp result (times (value a) (value b)) }
    ensures size { 0 < a.m → 0 < b.m → HasSize result (a.e +ℤ b.e +ℤ pos 17) (a.e +ℤ b.e +ℤ pos 18) }
    ensures exponent { IsWithin result.e (a.e +ℤ b.e +ℤ pos 17) (a.e +ℤ b.e +ℤ pos 18) }
{
    let product = a.m as u128 * b.m as u128;
    if product == 0 {
        ZERO
    } else {
        round_up(product - 1, BEHIND_PRODUCT, a.e + b.e)
    }
}
