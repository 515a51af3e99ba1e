// Branches from layer to layer.
ghost use Rattle.std.specs.Prelude.{◌≡◌, ◌<◌, ◌≤◌, ◌==◌, IfSome};
ghost use Rattle.decimal_input.specs.{size, Encloses, Ratio};
ghost use Rattle.model_types.specs.{IsPositive};
ghost use Rattle.conductance_bounds.specs.{Term, IsBetween, IsOrdered, reach, AreBounds, vertical_k_term, resistance_sum, vertical_half_of, bed_of};
ghost use Rattle.conductance_bounds.specs.{vertical_of, vertical_exact, small_pair, IsVertHalf, IsBed};

use crate::area::area;
use crate::interval::{exact_span, span_of};
use crate::pair::{Pair, rounded_pair};
use crate::span::Span;
use decimal_input::dec::Dec;
use scaled_decimal::Sd;

/// A cell's half of a branch to the layer above or below: HK and VKA, whether VKA is the ratio of HK to the vertical
/// conductivity (LAYVKA isn't 0), and the bounds of its thickness.
#[derive(Clone, Copy)]
pub struct VertHalf {
    pub hk: Dec,
    pub vka: Dec,
    pub ratio: bool,
    pub thick_lo: Sd,
    pub thick_hi: Sd,
}

/// The confining bed between two cells: the bounds of its thickness, both 0 without a bed, and VKCB.
#[derive(Clone, Copy)]
pub struct Bed {
    pub thick_lo: Sd,
    pub thick_hi: Sd,
    pub vkcb: Dec,
}

/// The bounds of the conductance between a cell `a` and the cell `b` below it, in units of 10 ^ -s; None where the
/// upper one is 2 ^ 60 or more. (TM 6-A16, chapter 5, vertical conductance.)
pub fn vert_branch(
    a: &VertHalf,
    b: &VertHalf,
    bed: &Bed,
    delr: Dec,
    delc: Dec,
    s: u32,
) -> Option<Pair>
    requires first { IsVertHalf a.now }
    requires second { IsVertHalf b.now }
    requires bed { IsBed bed.now }
    requires delr { IsPositive delr }
    requires delc { IsPositive delc }
    requires places { s ≤ 18 }
    ensures rounded { (f g h : Ratio) → result ≡ small_pair (vertical_of a.now b.now bed.now delr delc f g h) s }
    ensures encloses { (f g h : Ratio) → IsBetween a.now.thick_lo a.now.thick_hi f → IsBetween b.now.thick_lo b.now.thick_hi g →
        IsBetween bed.now.thick_lo bed.now.thick_hi h →
        IfSome result (λ p. Encloses p.lo p.hi s (vertical_exact a.now b.now bed.now delr delc f g h)) }
{
    let first = half_resistance(a);
    let second = half_resistance(b);
    rounded_pair(
        area(delr, delc).over(joined_resistance(first, bed, second)),
        s,
    )
}

// VK: VKA, or HK / VKA.
fn conductivity(a: &VertHalf) -> Span
    requires half { IsVertHalf a.now }
    ensures ordered { IsOrdered result }
    ensures bounds { AreBounds (vertical_k_term a.now.ratio (size a.now.hk) (size a.now.vka)) result }
    ensures reach { reach result ≤ 132 }
    ensures positive { 0 < result.lo.m }
{
    let vka = exact_span(a.vka);
    if a.ratio {
        exact_span(a.hk).over(vka)
    } else {
        vka
    }
}

// The resistance of a half, times the area.
fn half_resistance(a: &VertHalf) -> Span
    requires half { IsVertHalf a.now }
    ensures ordered { IsOrdered result }
    ensures bounds { (f : Ratio) → AreBounds (vertical_half_of a.now f) result }
    ensures reach { reach result ≤ 400 }
    ensures positive { 0 < result.lo.m }
{
    let k = conductivity(a);
    span_of(a.thick_lo, a.thick_hi).over(k.plus(k))
}

// The resistance from cell to cell, with the bed's between those of the halves.
fn joined_resistance(first: Span, bed: &Bed, second: Span) -> Span
    requires first { IsOrdered first }
    requires second { IsOrdered second }
    requires bed { IsBed bed.now }
    requires first_positive { 0 < first.lo.m }
    requires second_positive { 0 < second.lo.m }
    requires near { (reach first ≤ 400) × (reach second ≤ 400) }
    ensures ordered { IsOrdered result }
    ensures bounds { (t u : Term) (h : Ratio) → AreBounds t first → AreBounds u second →
        AreBounds (resistance_sum (bed.now.thick_lo.m == 0) t (bed_of bed.now h) u) result }
    ensures reach { reach result ≤ 1100 }
    ensures positive { 0 < result.lo.m }
{
    if bed.thick_lo.m == 0 {
        first.plus(second)
    } else {
        let bed = span_of(bed.thick_lo, bed.thick_hi).over(exact_span(bed.vkcb));
        first.plus(bed).plus(second)
    }
}
