// A number of the input as whole units.
ghost use Rattle.std.specs.Prelude.{◌<◌, ◌^◌, Bool, IfNone, IfSome, unsigned_abs, ◌≡◌, ◌*◌, ◌≤◌, MatchOption};
ghost use Rattle.decimal_input.specs.{IsDec, number, scaled_ratio, IsCeilingPast, IsFloorPast, IsSignedCeiling, IsSignedFloor, IsUnits, ceiling, floor};
ghost use Rattle.decimal_input.specs.{signed_units, with_sign};

use crate::dec::Dec;

/// The greatest whole number of units of 10 ^ -s not above the number; None where its magnitude is 2 ^ 126 or more.
pub fn floor_at(a: Dec, s: u32) -> Option<i128>
    requires canonical { IsDec a }
    ensures is { result ≡ floor a s }
    ensures floor { IfSome result (λ z. IsSignedFloor z (number a) s) }
    ensures within { IfSome result (λ z. unsigned_abs z < 2 ^ 126) }
    ensures past { IfNone result (IsFloorPast (number a) s) }
{
    signed_units(a, s, false)
}

/// The least whole number of units of 10 ^ -s not below the number; None where its magnitude is 2 ^ 126 or more.
pub fn ceil_at(a: Dec, s: u32) -> Option<i128>
    requires canonical { IsDec a }
    ensures is { result ≡ ceiling a s }
    ensures ceiling { IfSome result (λ z. IsSignedCeiling z (number a) s) }
    ensures within { IfSome result (λ z. unsigned_abs z < 2 ^ 126) }
    ensures past { IfNone result (IsCeilingPast (number a) s) }
{
    signed_units(a, s, true)
}

// The number in units of 10 ^ -s, rounded up or down; None where its magnitude is 2 ^ 126 or more.
fn signed_units(a: Dec, s: u32, up: bool) -> Option<i128>
    requires canonical { IsDec a }
    ensures { result ≡ signed_units up a s }
{
    match units_of(a.digits, a.exp, s, up != a.neg) {
        Some(units) => Some(with_sign(a.neg, units)),
        None => None,
    }
}

/// A number of units with its sign.
pub fn with_sign(neg: bool, units: u128) -> i128
    requires small { units < 2 ^ 126 }
    ensures { result ≡ with_sign neg units }
{
    if neg { -(units as i128) } else { units as i128 }
}

// The limit of every number of units.
const LIMIT: u128 = 1 << 126;

// m * 10 ^ places, or None where it is 2 ^ 126 or more.
#[tactic(auto, using(crate::proofs::Powers::power_within, crate::proofs::WholeUnits::past_units))]
fn multiple(m: u64, places: u64) -> Option<u128>
    requires some { 0 < m }
    ensures value { MatchOption result (2 ^ 126 ≤ m * 10 ^ places) (λ n. (n ≡ m * 10 ^ places) × (n < 2 ^ 126)) }
{
    if places > 38 {
        return None;
    }
    let unit = 10u128.pow(places as u32);
    match (m as u128).checked_mul(unit) {
        Some(units) if units < LIMIT => Some(units),
        _ => None,
    }
}

/// m * 10 ^ e in whole units of 10 ^ -s, rounded up to the least number of them not below it, or down to the greatest
/// one not above it; None where that is 2 ^ 126 or more.
pub fn units_of(m: u64, e: i16, s: u32, up: bool) -> Option<u128>
    requires digits { m < 10 ^ 18 }
    ensures value { IsUnits up (scaled_ratio m e) s result }
{
    if m == 0 {
        return Some(0);
    }
    let shift = e as i64 + s as i64;
    let places = shift.unsigned_abs();
    if shift >= 0 {
        return multiple(m, places);
    }
    // A smaller unit than 10 ^ -18 has the same quotients, 0 and 1.
    let unit = 10u128.pow(places.min(18) as u32);
    if up {
        Some((m as u128 - 1) / unit + 1)
    } else {
        Some(m as u128 / unit)
    }
}
