// Arithmetic on spans. Each operation is rounded down for the lower decimal and up for the upper one.
ghost use Rattle.std.specs.Prelude.{◌≡◌, ◌+◌, ◌<◌, ◌≤◌, ℕ, false, pos, neg_ℤ, ◌+ℤ◌};
ghost use Rattle.std.specs.Int.{int_max};
ghost use Rattle.decimal_input.specs.{IsDec, size, Ratio};
ghost use Rattle.decimal_input.specs.Ratios.{AtMost, Same};
ghost use Rattle.scaled_decimal.specs.{IsSd, HasSize, Lower, Upper, value};
ghost use Rattle.model_types.specs.{one};
ghost use Rattle.conductance_bounds.specs.{AreFactors, Term, bound, Number, Within, Sum, Product, Quotient, AreThick, IsOrdered, reach, AreBounds};

use crate::span::Span;
use decimal_input::dec::Dec;
use scaled_decimal::{Sd, add_dn, add_up, div_dn, div_up, mul_dn, mul_up, of_dec};

const UNITY: Sd = Sd {
    m: 100_000_000_000_000_000,
    e: -17,
};

/// The number 1.
pub(crate) fn one() -> Span
    ensures ordered { IsOrdered result }
    ensures bounds { AreBounds (Number one) result }
    ensures reach { reach result ≤ 17 }
    ensures positive { 0 < result.lo.m }
    ensures low { HasSize result.lo (neg_ℤ (pos 17)) (neg_ℤ (pos 17)) }
    ensures high { HasSize result.hi (neg_ℤ (pos 17)) (neg_ℤ (pos 17)) }
{
    Span {
        lo: UNITY,
        hi: UNITY,
    }
}

/// A number of the input, exactly.
pub(crate) fn exact_span(a: Dec) -> Span
    requires number { IsDec a }
    requires sign { a.neg ≡ false }
    ensures ordered { IsOrdered result }
    ensures bounds { AreBounds (Number (size a)) result }
    ensures exact { Same (value result.lo) (size a) × Same (value result.hi) (size a) }
    ensures reach { reach result ≤ 57 }
    ensures positive { 0 < a.digits → 0 < result.lo.m }
{
    let x = of_dec(a);
    Span { lo: x, hi: x }
}

/// A thickness between its two decimals.
pub(crate) fn span_of(lo: Sd, hi: Sd) -> Span
    requires thick { AreThick lo hi }
    ensures ordered { IsOrdered result }
    ensures bounds { (f : Ratio) → AreBounds (Within lo hi f) result }
    ensures reach { reach result ≤ 100 }
    ensures positive { 0 < result.lo.m }
{
    Span { lo, hi }
}

/// A factor of time steps between its two decimals.
pub(crate) fn factor(lo: Sd, hi: Sd) -> Span
    requires low { IsSd lo }
    requires high { IsSd hi }
    requires order { AtMost (value lo) (value hi) }
    requires some { 0 < lo.m }
    ensures ordered { IsOrdered result }
    ensures bounds { (t : Term) → lo ≡ bound t Lower → hi ≡ bound t Upper → AreBounds t result }
    ensures reach { (n : ℕ) → AreFactors n lo hi → reach result ≤ n }
    ensures positive { 0 < result.lo.m }
{
    Span { lo, hi }
}

impl Span {
    pub(crate) fn plus(self, other: Span) -> Span
        requires first { IsOrdered self }
        requires second { IsOrdered other }
        requires near { reach self + reach other ≤ 10000 }
        ensures ordered { IsOrdered result }
        ensures bounds { (t u : Term) → AreBounds t self → AreBounds u other → AreBounds (Sum t u) result }
        ensures reach { reach result ≤ reach self + reach other + 18 }
        ensures positive { 0 < self.lo.m → 0 < other.lo.m → 0 < result.lo.m }
        ensures lower { 0 < self.lo.m → 0 < other.lo.m → HasSize result.lo (int_max self.lo.e other.lo.e) (int_max self.lo.e other.lo.e +ℤ pos 1) }
        ensures upper { 0 < self.hi.m → 0 < other.hi.m → HasSize result.hi (int_max self.hi.e other.hi.e) (int_max self.hi.e other.hi.e +ℤ pos 1) }
    {
        Span {
            lo: add_dn(self.lo, other.lo),
            hi: add_up(self.hi, other.hi),
        }
    }

    pub(crate) fn times(self, other: Span) -> Span
        requires first { IsOrdered self }
        requires second { IsOrdered other }
        requires near { reach self + reach other ≤ 10000 }
        ensures ordered { IsOrdered result }
        ensures bounds { (t u : Term) → AreBounds t self → AreBounds u other → AreBounds (Product t u) result }
        ensures reach { reach result ≤ reach self + reach other + 18 }
        ensures positive { 0 < self.lo.m → 0 < other.lo.m → 0 < result.lo.m }
        ensures lower { 0 < self.lo.m → 0 < other.lo.m → HasSize result.lo (self.lo.e +ℤ other.lo.e +ℤ pos 17) (self.lo.e +ℤ other.lo.e +ℤ pos 18) }
        ensures upper { 0 < self.hi.m → 0 < other.hi.m → HasSize result.hi (self.hi.e +ℤ other.hi.e +ℤ pos 17) (self.hi.e +ℤ other.hi.e +ℤ pos 18) }
    {
        Span {
            lo: mul_dn(self.lo, other.lo),
            hi: mul_up(self.hi, other.hi),
        }
    }

    pub(crate) fn over(self, divisor: Span) -> Span
        requires first { IsOrdered self }
        requires second { IsOrdered divisor }
        requires near { reach self + reach divisor ≤ 10000 }
        requires divisor_positive { 0 < divisor.lo.m }
        ensures ordered { IsOrdered result }
        ensures bounds { (t u : Term) → AreBounds t self → AreBounds u divisor → AreBounds (Quotient t u) result }
        ensures reach { reach result ≤ reach self + reach divisor + 18 }
        ensures positive { 0 < self.lo.m → 0 < result.lo.m }
    {
        Span {
            lo: div_dn(self.lo, divisor.hi),
            hi: div_up(self.hi, divisor.lo),
        }
    }
}
