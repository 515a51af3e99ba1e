// Whether the listed terms are as wide as the budget of the listed heads.
ghost use Rattle.std.specs.Prelude.{IfOk, IfErr};
ghost use Rattle.cell_relax.specs.{AreWords};
ghost use Rattle.check_run.specs.{IsCovered, IsUncovered};

use crate::listing::CheckFault;
use budget_bounds::{Budget, budget, first_uncovered};
use step_problem::{Bound, Place, Problem};

/// Tests listed terms against the budget of the heads between these bounds. It takes no memory.
pub(crate) fn test_terms(
    problem: &Problem,
    bounds: &[Bound],
    listed: &Budget,
) -> Result<(), CheckFault>
    requires bounds { AreWords problem.now bounds.now }
    ensures covers { IfOk result (λ _. IsCovered problem.now bounds.now listed.now) }
    ensures fails { IfErr result (IsUncovered problem.now bounds.now listed.now) }
{
    let computed = match budget(problem, bounds) {
        Ok(computed) => computed,
        Err(refusal) => return Err(CheckFault::Refused(refusal)),
    };
    match first_uncovered(listed, &computed) {
        None => Ok(()),
        Some((dir, term)) => Err(CheckFault::Fails(Place::Term(dir, term))),
    }
}
