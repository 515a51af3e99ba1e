// The budget of the problem of one side, without storage.
ghost use Rattle.std.specs.Prelude.{◌≡◌, ◌<◌, ℕ, All, IfErr, IfOk, Ok, length, map};
ghost use Rattle.step_problem.specs.{entries_at};
ghost use Rattle.budget_bounds.specs.{AreHeads};
ghost use Rattle.cell_relax.specs.{heads_on};
ghost use Rattle.gentle_check.specs.{one_head as one_head_of};
ghost use Rattle.gentle_budget.specs.{HasNoSideBudget, side_budget, side_words};

use budget_bounds::{Budget, budget};
use cell_relax::head_on;
use gentle_steps::one_head;
use std::alloc::{AllocError, Global};
use step_problem::{Bound, BoundFault, Problem, Side};

// The listed heads of a problem's cells on a side.
fn side_words(
    alloc: Global,
    problem: &Problem,
    listed: &[Bound],
    side: Side,
) -> Result<Vec<Bound>, AllocError>
    requires ids { (k : ℕ) → k < length problem.now → (entries_at problem.now k).id < length listed.now }
    ensures { IfOk result (λ v. v.items ≡ side_words listed.now side problem.now) }
{
    let mut words = Vec::with_capacity(alloc, problem.len())?;
    for k in 0..problem.len() {
        let head = head_on(side, listed[problem.cell(k).id as usize]);
        words.push(one_head(head))?;
    }
    Ok(words)
}

/// The budget at the listed heads of a side, or its first term that is too large.
pub(crate) fn side_budget(
    alloc: Global,
    problem: &Problem,
    listed: &[Bound],
    side: Side,
) -> Result<Budget, BoundFault>
    requires ids { (k : ℕ) → k < length problem.now → (entries_at problem.now k).id < length listed.now }
    requires heads { All AreHeads listed.now }
    ensures budget { IfOk result (λ b. side_budget listed.now side problem.now ≡ Ok b) }
    ensures refusal { IfErr result (HasNoSideBudget listed.now side problem.now) }
{
    let words = side_words(alloc, problem, listed, side)?;
    match budget(problem, words.as_slice()) {
        Ok(budget) => Ok(budget),
        Err(refusal) => Err(BoundFault::NoBound(refusal)),
    }
}
