//! Whether the bounds of a step's heads are certified: a small check that needs no trust in the code that found them.
#![tactic(auto)]

ghost use Rattle.std.specs.Prelude.{◌≡◌, ℕ, ℤ, List, length, ◌<◌, ◌↔◌};
ghost use Rattle.step_problem.specs.{head_at, lower_at, upper_at, IsCertificate};
ghost use Rattle.cell_relax.specs.{AreWords};
ghost use Rattle.cell_balance.specs.{ExactCell, EnclosesStep, EnclosesSolutions, SolvesStep, LiesBetween, IsHeldBelow};
ghost use Rattle.certificate_check.specs.{IsFirstFailing, IsYes, IfNo};

pub mod laws;
mod search;

use search::first_failing;
pub use search::range_refusal;
use step_problem::{Barrier, Bound, Problem, Side};

/// Whether bounds are a certificate, or the first place that fails: a variable cell, by its index, and a side of it.
#[derive(Clone, Copy)]
pub enum Verdict {
    Yes,
    No { cell: u32, side: Side },
}

/// Checks the bounds of a step's variable cells, in units of 10^-9 length units. They are certified if each lower
/// head is at most the cell's floor or its lower balance is not negative, and each upper head is at least the ceiling
/// or its upper balance is not positive.
/// The cells are tried in ascending order, the lower side first at each. `cell_relax::are_words` tests the condition on the bounds.
#[tactic(auto, using(crate::proofs::Certified::certificate_compares, crate::proofs::Certified::certificate_encloses))]
pub fn check_step(p: &Problem, barrier: &Barrier, bounds: &[Bound]) -> Verdict
    requires floors { length barrier.now.floor ≡ length p.now }
    requires ceilings { length barrier.now.ceiling ≡ length p.now }
    requires bounds { AreWords p.now bounds.now }
    ensures exact { IsYes result ↔ IsCertificate p.now barrier.now (lower_at bounds.now) (upper_at bounds.now) }
    ensures first { IfNo result (λ cell side. IsFirstFailing p.now barrier.now bounds.now cell side) }
    // Where each component is anchored or carried, certified bounds enclose each solution that the barrier encloses.
    ensures comparison { IsYes result → IsHeldBelow p.now → (s : ℕ) (e : List ExactCell) (d : ℕ) (X : ℕ → ℤ) →
        EnclosesStep s p.now e → 0 < d → SolvesStep e d X →
        LiesBetween (length p.now) d X (head_at barrier.now.floor) (head_at barrier.now.ceiling) →
        LiesBetween (length p.now) d X (lower_at bounds.now) (upper_at bounds.now) }
    // So if the barrier encloses every solution, the bounds do.
    ensures encloses { IsYes result → IsHeldBelow p.now →
        EnclosesSolutions p.now (head_at barrier.now.floor) (head_at barrier.now.ceiling) →
        EnclosesSolutions p.now (lower_at bounds.now) (upper_at bounds.now) }
{
    p.recall_conditions();
    match first_failing(p, barrier, bounds) {
        None => Verdict::Yes,
        Some((cell, side)) => Verdict::No { cell, side },
    }
}
