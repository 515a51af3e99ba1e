// Storage of a time step.
ghost use Rattle.std.specs.Prelude.{ℕ, ◌<◌, ◌≤◌, IfSome, ◌≡◌, ◌+◌, ◌-◌, MatchBool};
ghost use Rattle.decimal_input.specs.{size, Encloses, Ratio};
ghost use Rattle.model_types.specs.{IsPositive, IsNotNegative, number_one};
ghost use Rattle.conductance_bounds.specs.{IsOrdered, reach, AreBounds, IsUsable, factors_of, sum_term, power_term, IsSlow, IsMultiplier, AreFactors};
ghost use Rattle.conductance_bounds.specs.{storativity_term, thickness_of, storage_of, storage_exact, small_pair, IsThickness, LiesWithin};

use crate::area::area;
use crate::interval::{exact_span, factor, one, span_of};
use crate::pair::{Pair, rounded_pair};
use crate::span::Span;
use decimal_input::dec::Dec;
use scaled_decimal::{Sd, of_units_dn};

/// The bounds of a cell's storage over a time step, as a conductance in units of 10 ^ -s; None where the upper one is
/// 2 ^ 60 or more. `thick` has the lower and the upper bound of the thickness, and is None under the option
/// STORAGECOEFFICIENT; `factors` are those of the step, and `perlen` is the length of the stress period. (TM 6-A16,
/// chapters 2 and 5.)
pub fn storage_branch(
    ss: Dec,
    thick: Option<(Sd, Sd)>,
    delr: Dec,
    delc: Dec,
    factors: &Factors,
    perlen: Dec,
    s: u32,
) -> Option<Pair>
    requires ss { IsNotNegative ss }
    requires thick { IsThickness thick }
    requires delr { IsPositive delr }
    requires delc { IsPositive delc }
    requires factors { IsUsable factors.now }
    requires perlen { IsPositive perlen }
    requires places { s ≤ 18 }
    ensures rounded { (t : Ratio) (steps n : ℕ) (f : Ratio) → factors.now ≡ factors_of t steps n →
        result ≡ small_pair (storage_of ss thick delr delc t steps n perlen f) s }
    ensures encloses { (t : Ratio) (steps n : ℕ) (f : Ratio) → 1 ≤ steps → 0 < t.num → factors.now ≡ factors_of t steps n → LiesWithin thick f →
        IfSome result (λ p. Encloses p.lo p.hi s (storage_exact ss thick delr delc t steps n perlen f)) }
{
    let capacity = storativity(ss, thick).times(area(delr, delc));
    let sum = factor(factors.sum_lo, factors.sum_hi);
    let power = factor(factors.power_lo, factors.power_hi);
    rounded_pair(capacity.times(sum).over(exact_span(perlen).times(power)), s)
}

// SS times the thickness, or SS alone.
fn storativity(ss: Dec, thick: Option<(Sd, Sd)>) -> Span
    requires ss { IsNotNegative ss }
    requires thick { IsThickness thick }
    ensures ordered { IsOrdered result }
    ensures bounds { (f : Ratio) → AreBounds (storativity_term (size ss) (thickness_of thick f)) result }
    ensures reach { reach result ≤ 175 }
{
    let ss = exact_span(ss);
    match thick {
        Some((lo, hi)) => ss.times(span_of(lo, hi)),
        None => ss,
    }
}

// The factors of growing time steps.

/// The bounds of two factors of a time step, with T for TSMULT: the sum 1 + T + .. + T ^ (NSTP - 1), and the power
/// T ^ (m - 1) of step m.
#[derive(Clone, Copy)]
pub struct Factors {
    pub sum_lo: Sd,
    pub sum_hi: Sd,
    pub power_lo: Sd,
    pub power_hi: Sd,
}

/// The factors of a step of a period of `nstp` steps. (TM 6-A16, chapter 4, DIS.)
pub fn step_factors(tsmult: Dec, nstp: u32, step: u32) -> Factors
    requires tsmult { IsPositive tsmult }
    requires multiplier { IsMultiplier tsmult nstp }
    requires steps { nstp ≤ 100000 }
    requires step { (1 ≤ step) × (step ≤ nstp) }
    ensures grown { result ≡ factors_of (size tsmult) nstp step }
    ensures usable { IsUsable result }
{
    let sum = sum_of(tsmult, nstp);
    let power = power_of(tsmult, step);
    Factors {
        sum_lo: sum.lo,
        sum_hi: sum.hi,
        power_lo: power.lo,
        power_hi: power.hi,
    }
}

/// The bounds of 1 + T + .. + T ^ (n - 1), without a loop where T is 1.
pub(crate) fn sum_of(tsmult: Dec, n: u32) -> Span
    requires tsmult { IsPositive tsmult }
    requires multiplier { IsMultiplier tsmult n }
    requires steps { (1 ≤ n) × (n ≤ 100000) }
    ensures bounds { AreBounds (sum_term (size tsmult) (n - 1)) result }
    ensures factors { AreFactors 5000 result.lo result.hi }
{
    if is_one(tsmult) {
        let whole = of_units_dn(n as u128, 0);
        Span {
            lo: whole,
            hi: whole,
        }
    } else {
        growing_sum(tsmult, n - 1)
    }
}

/// The bounds of T ^ (n - 1), without a loop where T is 1.
fn power_of(tsmult: Dec, n: u32) -> Span
    requires tsmult { IsPositive tsmult }
    requires multiplier { IsMultiplier tsmult n }
    requires steps { (1 ≤ n) × (n ≤ 100000) }
    ensures bounds { AreBounds (power_term (size tsmult) (n - 1)) result }
    ensures factors { AreFactors 4000 result.lo result.hi }
{
    if is_one(tsmult) {
        one()
    } else {
        growing_power(tsmult, n - 1)
    }
}

fn is_one(tsmult: Dec) -> bool
    requires tsmult { IsPositive tsmult }
    ensures { MatchBool result (tsmult ≡ number_one) (tsmult ≡ number_one → ⊥) }
{
    tsmult.digits == 1 && tsmult.exp == 0
}

// By Horner's rule.
fn growing_sum(tsmult: Dec, more: u32) -> Span
    requires tsmult { IsPositive tsmult }
    requires slow { IsSlow tsmult (more + 1) }
    ensures bounds { AreBounds (sum_term (size tsmult) more) result }
    ensures factors { AreFactors 5000 result.lo result.hi }
{
    let t = exact_span(tsmult);
    let one = one();
    let mut sum = one;
    for _step in 0..more {
        sum = sum.times(t).plus(one);
    }
    sum
}

fn growing_power(tsmult: Dec, more: u32) -> Span
    requires tsmult { IsPositive tsmult }
    requires slow { IsSlow tsmult (more + 1) }
    ensures bounds { AreBounds (power_term (size tsmult) more) result }
    ensures factors { AreFactors 4000 result.lo result.hi }
{
    let t = exact_span(tsmult);
    let mut power = one();
    for _step in 0..more {
        power = power.times(t);
    }
    power
}
