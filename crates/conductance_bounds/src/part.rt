// The part of a stress period that has passed.
ghost use Rattle.std.specs.Prelude.{◌≡◌, ℕ, ◌-◌, ◌<◌, ◌≤◌, ◌^◌, min};
ghost use Rattle.decimal_input.specs.Ratios.{AtMost};
ghost use Rattle.decimal_input.specs.{IsFloor, IsCeiling};
ghost use Rattle.scaled_decimal.specs.{IsSd, value};
ghost use Rattle.model_types.specs.{one, multiplier, part_passed, IsTimed};
ghost use Rattle.conductance_bounds.specs.{sum_term, is_whole, part, IsPassed, IsOrdered, reach, AreBounds};

use crate::span::Span;
use crate::storage::sum_of;
use decimal_input::dec::Dec;
use model_types::Period;
use scaled_decimal::{Sd, ceil_units, floor_units};

/// The bounds of the part of a stress period that has passed, in units of 10 ^ -18.
#[derive(Clone, Copy)]
pub struct Part {
    pub lo: u64,
    pub hi: u64,
}

/// All of the period.
pub(crate) const WHOLE: u64 = 1_000_000_000_000_000_000;

const NUMBER_ONE: Dec = Dec {
    digits: 1,
    exp: 0,
    neg: false,
};

/// The part of a stress period that has passed at the end of a step, counted from 1. (TM 6-A16, chapter 4, DIS.)
pub fn time_part(period: &Period, step: u32) -> Part
    requires times { IsTimed period.now }
    requires step { (1 ≤ step) × (step ≤ period.now.nstp) }
    ensures rounded { result ≡ part period.now step }
    ensures encloses { IsPassed (part_passed period.now step) result.lo result.hi }
{
    if is_over(period, step) {
        return Part {
            lo: WHOLE,
            hi: WHOLE,
        };
    }
    let passed = sum_at(period, step).over(sum_at(period, period.nstp));
    Part {
        lo: lower_part(passed.lo),
        hi: upper_part(passed.hi),
    }
}

fn is_over(period: &Period, step: u32) -> bool
    ensures { result ≡ is_whole period.now step }
{
    step == period.nstp || period.perlen.digits == 0
}

// The bounds of G(n), where TSMULT counts as 1 in a steady period.
fn sum_at(period: &Period, n: u32) -> Span
    requires times { IsTimed period.now }
    requires step { (1 ≤ n) × (n ≤ period.now.nstp) }
    ensures bounds { AreBounds (sum_term (multiplier period.now) (n - 1)) result }
    ensures ordered { IsOrdered result }
    ensures reach { reach result ≤ 5000 }
    ensures positive { 0 < result.lo.m }
{
    if period.steady {
        sum_of(NUMBER_ONE, n)
    } else {
        sum_of(period.tsmult, n)
    }
}

fn lower_part(x: Sd) -> u64
    requires decimal { IsSd x }
    requires part { AtMost (value x) one }
    ensures floor { IsFloor result (value x) 18 }
{
    match floor_units(x, 18) {
        Some(part) => part as u64,
        None => unreachable!(),
    }
}

fn upper_part(x: Sd) -> u64
    requires decimal { IsSd x }
    ensures ceiling { (n : ℕ) → IsCeiling n (value x) 18 → result ≡ min n (10 ^ 18) }
{
    match ceil_units(x, 18) {
        Some(part) if part < WHOLE as u128 => part as u64,
        _ => WHOLE,
    }
}
