// The first place where a certificate fails.
ghost use Rattle.std.specs.Prelude.{◌≡◌, ◌<◌, length, MatchOption, ◌↔◌, IsTrue, ℕ, IsNone};
ghost use Rattle.step_problem.specs.{lower_at, upper_at, IsCertificate};
ghost use Rattle.cell_relax.specs.{AreWords};
ghost use Rattle.certificate_check.specs.{HoldsAt, IsFirstFailing, IsRangeRefusal};
ghost use Rattle.cell_balance.specs.{IsHeldBelow, EnclosesSolutions};
ghost use Rattle.barrier_vector.specs.{IsLeastWith, EnclosesUncut, clamped_edges};

use barrier_vector::{is_out_of_range, out_of_range};
use cell_relax::balance_in;
use step_problem::{Barrier, Bound, NoBound, Problem, Side};

// The side of a cell that fails, the lower one first.
fn failing_side(p: &Problem, barrier: &Barrier, bounds: &[Bound], cell: usize) -> Option<Side>
    requires index { cell < length p.now }
    requires floors { length barrier.now.floor ≡ length p.now }
    requires ceilings { length barrier.now.ceiling ≡ length p.now }
    requires bounds { AreWords p.now bounds.now }
    ensures { MatchOption result ((s : Side) → HoldsAt p.now barrier.now bounds.now cell s)
        (λ s. (HoldsAt p.now barrier.now bounds.now cell s → ⊥)
        × (s ≡ Side.High → HoldsAt p.now barrier.now bounds.now cell Side.Low)) }
{
    if !holds_at(p, barrier, bounds, cell, Side::Low) {
        return Some(Side::Low);
    }
    if !holds_at(p, barrier, bounds, cell, Side::High) {
        return Some(Side::High);
    }
    None
}

// The first cell that fails, by its index, and its side.
pub fn first_failing(p: &Problem, barrier: &Barrier, bounds: &[Bound]) -> Option<(u32, Side)>
    requires floors { length barrier.now.floor ≡ length p.now }
    requires ceilings { length barrier.now.ceiling ≡ length p.now }
    requires bounds { AreWords p.now bounds.now }
    ensures { MatchOption result (IsCertificate p.now barrier.now (lower_at bounds.now) (upper_at bounds.now))
        (λ f. IsFirstFailing p.now barrier.now bounds.now f.0 f.1) }
{
    let cells = p.len();
    for cell in 0..cells {
        if let Some(side) = failing_side(p, barrier, bounds, cell) {
            return Some((cell as u32, side));
        }
    }
    None
}

// Whether a certificate holds at one side of a cell.

pub fn holds_at(p: &Problem, barrier: &Barrier, bounds: &[Bound], cell: usize, side: Side) -> bool
    requires index { cell < length p.now }
    requires floors { length barrier.now.floor ≡ length p.now }
    requires ceilings { length barrier.now.ceiling ≡ length p.now }
    requires bounds { AreWords p.now bounds.now }
    ensures { IsTrue result ↔ HoldsAt p.now barrier.now bounds.now cell side }
{
    match side {
        Side::Low => bounds[cell].low <= barrier.floor[cell]
            || balance_in(p, bounds, cell, Side::Low) >= 0,
        Side::High => bounds[cell].high >= barrier.ceiling[cell]
            || balance_in(p, bounds, cell, Side::High) <= 0,
    }
}

// The refusal of heads that can't leave the end of the range of heads.

// Whether the certificate holds at a side of a cell. It does where neither the floor nor the ceiling was cut.
fn holds(p: &Problem, barrier: &Barrier, bounds: &[Bound], cell: usize, side: Side) -> bool
    requires index { cell < length p.now }
    requires floors { length barrier.now.floor ≡ length p.now }
    requires ceilings { length barrier.now.ceiling ≡ length p.now }
    requires bounds { AreWords p.now bounds.now }
    requires settled { IsCertificate p.now (clamped_edges barrier.now) (lower_at bounds.now) (upper_at bounds.now) }
    ensures { IsTrue result ↔ HoldsAt p.now barrier.now bounds.now cell side }
{
    let bound = side.bound_of(barrier.floor[cell], barrier.ceiling[cell]);
    !is_out_of_range(side, bound) || holds_at(p, barrier, bounds, cell, side)
}

// The first cell that fails at a side, by its index.
fn first_on(p: &Problem, barrier: &Barrier, bounds: &[Bound], side: Side) -> Option<usize>
    requires floors { length barrier.now.floor ≡ length p.now }
    requires ceilings { length barrier.now.ceiling ≡ length p.now }
    requires bounds { AreWords p.now bounds.now }
    requires settled { IsCertificate p.now (clamped_edges barrier.now) (lower_at bounds.now) (upper_at bounds.now) }
    ensures { MatchOption result ((c : ℕ) → c < length p.now → HoldsAt p.now barrier.now bounds.now c side)
        (IsLeastWith p.now (λ c. HoldsAt p.now barrier.now bounds.now c side → ⊥)) }
{
    for cell in 0..p.len() {
        if !holds(p, barrier, bounds, cell, side) {
            return Some(cell);
        }
    }
    None
}

/// The refusal of heads that settled from a cut barrier, clamped, where they are no certificate over it: 26 where a lower head
/// can't leave the least head, else 27 where an upper head can't leave the greatest one, each at the least such cell.
/// None where they are a certificate over the cut barrier.
pub fn range_refusal(p: &Problem, barrier: &Barrier, bounds: &[Bound]) -> Option<NoBound>
    requires floors { length barrier.now.floor ≡ length p.now }
    requires ceilings { length barrier.now.ceiling ≡ length p.now }
    requires bounds { AreWords p.now bounds.now }
    requires settled { IsCertificate p.now (clamped_edges barrier.now) (lower_at bounds.now) (upper_at bounds.now) }
    ensures exact { MatchOption result (IsCertificate p.now barrier.now (lower_at bounds.now) (upper_at bounds.now))
        (IsRangeRefusal p.now barrier.now bounds.now) }
    // So without a refusal the heads enclose every solution, where each component is anchored or carried.
    ensures encloses { IsNone result → IsHeldBelow p.now → EnclosesUncut p.now barrier.now →
        EnclosesSolutions p.now (lower_at bounds.now) (upper_at bounds.now) }
{
    p.recall_conditions();
    if let Some(cell) = first_on(p, barrier, bounds, Side::Low) {
        return Some(out_of_range(p, cell, Side::Low));
    }
    if let Some(cell) = first_on(p, barrier, bounds, Side::High) {
        return Some(out_of_range(p, cell, Side::High));
    }
    None
}
