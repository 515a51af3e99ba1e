// Whether the listed heads of variable cells are a certificate.
ghost use Rattle.std.specs.Prelude.{◌≡◌, ◌<◌, ℕ, length, map, IfOk, IfErr};
ghost use Rattle.step_problem.specs.declared.heads.Side.{Side};
ghost use Rattle.step_problem.specs.declared.place.Place.TheVariants.{Cell};
ghost use Rattle.step_problem.specs.{entries_at, lower_at, upper_at, IsCertificate};
ghost use Rattle.cell_balance.specs.{IsHeldBelow, EnclosesSolutions};
ghost use Rattle.barrier_vector.specs.{EnclosesUncut};
ghost use Rattle.cell_relax.specs.{AreWords};
ghost use Rattle.certificate_check.specs.{IsFirstFailing};
ghost use Rattle.problem_builder.specs.{bound_at};
ghost use Rattle.check_run.specs.declared.listing.CheckFault.TheVariants.{Fails};

use crate::listing::CheckFault;
use certificate_check::laws::certificate_encloses;
use certificate_check::{Verdict, check_step};
use std::alloc::{AllocError, Global};
use step_problem::{Barrier, Bound, Place, Problem};

/// The listed bounds of a problem's cells.
pub fn bounds_of(
    alloc: Global,
    problem: &Problem,
    heads: &[Bound],
) -> Result<Vec<Bound>, AllocError>
    requires { (k : ℕ) → k < length problem.now → (entries_at problem.now k).id < length heads.now }
    ensures { IfOk result (λ v. v.items ≡ map (λ e. bound_at heads.now e.id) problem.now) }
{
    let mut bounds = Vec::new(alloc);
    for k in 0..problem.len() {
        bounds.push(heads[problem.cell(k).id as usize])?;
    }
    Ok(bounds)
}

/// Tests the bounds of a problem's cells over its barrier. It takes no memory.
pub fn test_heads(problem: &Problem, barrier: &Barrier, bounds: &[Bound]) -> Result<(), CheckFault>
    requires floors { length barrier.now.floor ≡ length problem.now }
    requires ceilings { length barrier.now.ceiling ≡ length problem.now }
    requires bounds { AreWords problem.now bounds.now }
    ensures certificate { IfOk result (λ _. IsCertificate problem.now barrier.now (lower_at bounds.now) (upper_at bounds.now)) }
    ensures encloses { IfOk result
        (λ _. IsHeldBelow problem.now →
        EnclosesUncut problem.now barrier.now →
        EnclosesSolutions problem.now (lower_at bounds.now) (upper_at bounds.now)) }
    ensures fails { IfErr result (λ e. (k : ℕ) × (side : Side)
        × IsFirstFailing problem.now barrier.now bounds.now k side
        × (e ≡ Fails (Cell (entries_at problem.now k).id side))) }
{
    certificate_encloses();
    problem.recall_conditions();
    match check_step(problem, barrier, bounds) {
        Verdict::Yes => Ok(()),
        Verdict::No { cell, side } => {
            let id = problem.cell(cell as usize).id;
            Err(CheckFault::Fails(Place::Cell(id, side)))
        }
    }
}
