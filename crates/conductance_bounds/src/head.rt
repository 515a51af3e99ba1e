// A head given at the start and at the end of a stress period.
ghost use Rattle.std.specs.Prelude.{◌≡◌, ◌≤◌, ◌^◌, ℤ, FitsSigned, ◌*◌, pos, ◌*ℤ◌};
ghost use Rattle.std.specs.Int.{w64};
ghost use Rattle.decimal_input.specs.{IsDec, number, EnclosesSigned, IsSignedFloor, IsSignedCeiling, Ratio};
ghost use Rattle.model_types.specs.declared.entry.Given.{Given};
ghost use Rattle.model_types.specs.{IsHeadNumber, between_heads};
ghost use Rattle.scaled_decimal.specs.{IsNear};
ghost use Rattle.conductance_bounds.specs.{IsPassed, IsHeadUnits, blend, ceiling_of, head_floor_of, given_pair, head_pair};

use crate::part::{Part, WHOLE};
use decimal_input::dec::Dec;
use decimal_input::units::{ceil_at, floor_at};

/// The bounds of a head, in units of 10 ^ -9.
#[derive(Clone, Copy)]
pub struct HeadPair {
    pub lo: i64,
    pub hi: i64,
}

/// The bounds of a head that goes from Shead to Ehead over a stress period, where the part of the period that has
/// passed lies within `part`. (TM 6-A16, chapter 6, CHD.)
pub fn given_head(shead: Dec, ehead: Dec, part: Part) -> HeadPair
    requires start { IsHeadNumber shead }
    requires end { IsHeadNumber ehead }
    requires part { (part.lo ≤ 10 ^ 18) × (part.hi ≤ 10 ^ 18) }
    ensures rounded { result ≡ given_pair shead ehead part }
    ensures encloses { (x : Given) (f : Ratio) → x.shead ≡ shead → x.ehead ≡ ehead → IsPassed f part.lo part.hi →
        EnclosesSigned result.lo result.hi 9 (between_heads x f) }
    ensures range { IsHeadUnits result.lo × IsHeadUnits result.hi }
{
    let start = head_bounds(shead);
    let end = head_bounds(ehead);
    let low = blend(start.lo, end.lo, part.lo).min(blend(start.lo, end.lo, part.hi));
    let high = blend(start.hi, end.hi, part.lo).max(blend(start.hi, end.hi, part.hi));
    HeadPair {
        lo: head_floor(low),
        hi: head_ceiling(high),
    }
}

/// The bounds of a head of the input: its floor and its ceiling.
pub fn head_bounds(head: Dec) -> HeadPair
    requires head { IsHeadNumber head }
    ensures rounded { result ≡ head_pair head }
    ensures range { IsHeadUnits result.lo × IsHeadUnits result.hi }
{
    whole_bounds(head)
}

/// The floor and the ceiling of a number in units of 10 ^ -9, where they fit 64 bits.
pub fn whole_bounds(x: Dec) -> HeadPair
    requires decimal { IsDec x }
    requires low { (z : ℤ) → IsSignedFloor z (number x) 9 → FitsSigned w64 z }
    requires high { (z : ℤ) → IsSignedCeiling z (number x) 9 → FitsSigned w64 z }
    ensures rounded { result ≡ head_pair x }
{
    let Some(low) = floor_at(x, 9) else {
        unreachable!()
    };
    let Some(high) = ceil_at(x, 9) else {
        unreachable!()
    };
    HeadPair {
        lo: low as i64,
        hi: high as i64,
    }
}

// Numbers between those at the start and at the end of a stress period.

/// The head at a part of the period, in units of 10 ^ -27.
pub(crate) fn blend(start: i64, end: i64, part: u64) -> i128
    requires start { IsHeadUnits start }
    requires end { IsHeadUnits end }
    requires part { part ≤ 10 ^ 18 }
    ensures value { result ≡ blend start end part }
    ensures range { IsNear result (4 * 10 ^ 36) }
{
    share(start, WHOLE - part) + share(end, part)
}

fn share(head: i64, part: u64) -> i128
    requires head { IsHeadUnits head }
    requires part { part ≤ 10 ^ 18 }
    ensures value { result ≡ head *ℤ pos part }
    ensures range { IsNear result (4 * 10 ^ 18 * part) }
{
    head as i128 * part as i128
}

/// A number in units of 10 ^ -27 as one in units of 10 ^ -9, rounded down.
pub(crate) fn head_floor(x: i128) -> i64
    requires range { IsNear x (4 * 10 ^ 36) }
    ensures floor { result ≡ head_floor_of x }
    ensures range { IsHeadUnits result }
{
    x.div_euclid(WHOLE as i128) as i64
}

/// A number in units of 10 ^ -27 as one in units of 10 ^ -9, rounded up.
pub(crate) fn head_ceiling(x: i128) -> i64
    requires range { IsNear x (4 * 10 ^ 36) }
    ensures ceiling { result ≡ ceiling_of x }
    ensures range { IsHeadUnits result }
{
    -head_floor(-x)
}
