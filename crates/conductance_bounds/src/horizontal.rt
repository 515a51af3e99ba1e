// Branches along rows and columns.
ghost use Rattle.std.specs.Prelude.{◌≡◌, ◌<◌, ◌≤◌, IfSome};
ghost use Rattle.decimal_input.specs.{size, Encloses, Ratio};
ghost use Rattle.model_types.specs.{IsPositive, one};
ghost use Rattle.conductance_bounds.specs.{Term, IsBetween, Number, Sum, Quotient, IsOrdered, reach, AreBounds, half_term, column_k, row_of, row_exact};
ghost use Rattle.conductance_bounds.specs.{column_of, column_exact, small_pair, IsHalf, IsColHalf};

use crate::interval::{exact_span, one, span_of};
use crate::pair::{Pair, rounded_pair};
use crate::span::Span;
use decimal_input::dec::Dec;
use scaled_decimal::Sd;

/// A cell's half of a branch along a row: its length, HK, and the bounds of its thickness.
#[derive(Clone, Copy)]
pub struct Half {
    pub along: Dec,
    pub hk: Dec,
    pub thick_lo: Sd,
    pub thick_hi: Sd,
}

/// A cell's half of a branch along a column: its length, HK, HANI, and the bounds of its thickness.
#[derive(Clone, Copy)]
pub struct ColHalf {
    pub along: Dec,
    pub hk: Dec,
    pub hani: Dec,
    pub thick_lo: Sd,
    pub thick_hi: Sd,
}

/// The bounds of the conductance between two cells of a row whose width is `width`, in units of 10 ^ -s; None
/// where the upper one is 2 ^ 60 or more. (TM 6-A16, chapter 5, harmonic mean.)
pub fn row_branch(a: &Half, b: &Half, width: Dec, s: u32) -> Option<Pair>
    requires first { IsHalf a.now }
    requires second { IsHalf b.now }
    requires width { IsPositive width }
    requires places { s ≤ 18 }
    ensures rounded { (f g : Ratio) → result ≡ small_pair (row_of a.now b.now width f g) s }
    ensures encloses { (f g : Ratio) → IsBetween a.now.thick_lo a.now.thick_hi f → IsBetween b.now.thick_lo b.now.thick_hi g →
        IfSome result (λ p. Encloses p.lo p.hi s (row_exact a.now b.now width f g)) }
{
    let width = exact_span(width);
    let thick = span_of(a.thick_lo, a.thick_hi);
    let first = resistance(a.along, width, exact_span(a.hk), thick);
    let thick = span_of(b.thick_lo, b.thick_hi);
    let second = resistance(b.along, width, exact_span(b.hk), thick);
    rounded_pair(in_a_row(first, second), s)
}

/// The bounds of the conductance between two cells of a column whose width is `width`, in units of 10 ^ -s; None
/// where the upper one is 2 ^ 60 or more. (TM 6-A16, chapter 5, harmonic mean.)
pub fn col_branch(a: &ColHalf, b: &ColHalf, width: Dec, s: u32) -> Option<Pair>
    requires first { IsColHalf a.now }
    requires second { IsColHalf b.now }
    requires width { IsPositive width }
    requires places { s ≤ 18 }
    ensures rounded { (f g : Ratio) → result ≡ small_pair (column_of a.now b.now width f g) s }
    ensures encloses { (f g : Ratio) → IsBetween a.now.thick_lo a.now.thick_hi f → IsBetween b.now.thick_lo b.now.thick_hi g →
        IfSome result (λ p. Encloses p.lo p.hi s (column_exact a.now b.now width f g)) }
{
    let width = exact_span(width);
    let thick = span_of(a.thick_lo, a.thick_hi);
    let first = resistance(a.along, width, along_column(a), thick);
    let thick = span_of(b.thick_lo, b.thick_hi);
    let second = resistance(b.along, width, along_column(b), thick);
    rounded_pair(in_a_row(first, second), s)
}

// HK * HANI, the conductivity along a column.
fn along_column(a: &ColHalf) -> Span
    requires half { IsColHalf a.now }
    ensures ordered { IsOrdered result }
    ensures bounds { AreBounds (column_k a.now) result }
    ensures reach { reach result ≤ 132 }
    ensures positive { 0 < result.lo.m }
{
    exact_span(a.hk).times(exact_span(a.hani))
}

// Half of a branch's resistance.
fn resistance(along: Dec, width: Span, k: Span, thick: Span) -> Span
    requires along { IsPositive along }
    requires width { IsOrdered width }
    requires k { IsOrdered k }
    requires thick { IsOrdered thick }
    requires width_positive { 0 < width.lo.m }
    requires k_positive { 0 < k.lo.m }
    requires thick_positive { 0 < thick.lo.m }
    requires near { (reach width ≤ 57) × (reach k ≤ 132) × (reach thick ≤ 100) }
    ensures ordered { IsOrdered result }
    ensures bounds { (w : Ratio) (c t : Term) → AreBounds (Number w) width → AreBounds c k → AreBounds t thick →
        AreBounds (half_term (size along) w c t) result }
    ensures reach { reach result ≤ 500 }
    ensures positive { 0 < result.lo.m }
{
    exact_span(along).over(width.plus(width).times(k.times(thick)))
}

// The conductance of two resistances in series.
fn in_a_row(first: Span, second: Span) -> Span
    requires first { IsOrdered first }
    requires second { IsOrdered second }
    requires first_positive { 0 < first.lo.m }
    requires second_positive { 0 < second.lo.m }
    requires near { (reach first ≤ 500) × (reach second ≤ 500) }
    ensures ordered { IsOrdered result }
    ensures bounds { (t u : Term) → AreBounds t first → AreBounds u second → AreBounds (Quotient (Number one) (Sum t u)) result }
{
    one().over(first.plus(second))
}
