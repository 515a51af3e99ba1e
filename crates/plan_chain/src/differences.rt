// The differences of two plans' heads at a time step.
ghost use Rattle.std.specs.Prelude.{◌≡◌, ◌<◌, ℕ, All, IfOk, IfErr, length, replicate};
ghost use Rattle.step_problem.specs.{IsHead, entries_at, lower_at, upper_at, no_bound};
ghost use Rattle.cell_relax.specs.{AreWords};
ghost use Rattle.problem_builder.specs.{bound_at};
ghost use Rattle.plan_chain.specs.{AreByCell, AreDifferencesBy, FailBy};

use model_types::{Limits, Listed};
use plan_step::difference_problem;
use problem_builder::start::NO_HEADS;
use std::alloc::{AllocError, Global};
use step_chain::{Solved, StepFault, barrier_by, settle_by};
use step_problem::{Bound, Problem, Settler};

// The bound of an index, zeros past the end.
fn bound_at(bounds: &[Bound], index: usize) -> Bound
    ensures { result ≡ bound_at bounds.now index }
{
    match bounds.get(index) {
        Some(bound) => *bound,
        None => NO_HEADS,
    }
}

/// Differences of 0 at this many cells.
pub(crate) fn no_differences(alloc: Global, count: usize) -> Result<Vec<Bound>, AllocError>
    ensures { IfOk result (λ all. all.items ≡ replicate count no_bound) }
{
    let mut all = Vec::new(alloc);
    for _ in 0..count {
        all.push(NO_HEADS)?;
    }
    Ok(all)
}

/// One bound for each of `count` cells, by cell number: a variable cell of the problem has that of its index, any other cell zeros.
#[tactic(auto, using(crate::proofs::ByCell::none_placed, crate::proofs::ByCell::one_placed, crate::proofs::ByCell::all_placed))]
pub fn by_cell(
    alloc: Global,
    count: usize,
    problem: &Problem,
    bounds: &[Bound],
) -> Result<Vec<Bound>, AllocError>
    requires { (k : ℕ) → k < length problem.now → (entries_at problem.now k).id < count }
    ensures { IfOk result (λ all. AreByCell count problem.now bounds.now all.items) }
{
    problem.recall_conditions();
    let mut all = no_differences(alloc, count)?;
    for k in 0..problem.len() {
        let id = problem.cell(k).id as usize;
        all[id] = bound_at(bounds, k);
    }
    Ok(all)
}

/// The differences, base plan less other plan, of a time step, from both plans' solved steps and the old differences of all cells: their problem is
/// made, and the settler gives its pair. Of `count` cells in all, those that aren't variable have a difference of 0.
#[tactic(auto, using(crate::proofs::Faults::barrier_fails, crate::proofs::Faults::settling_fails))]
pub fn next_differences<S: Settler>(
    alloc: Global,
    limits: Limits,
    base: &Solved,
    planned: &Solved,
    old: &[Bound],
    count: usize,
    settler: &mut S,
) -> Result<Solved, StepFault>
    requires ready { S.ready settler.old }
    requires as_many { length planned.now.problem ≡ length base.now.problem }
    requires cells { (k : ℕ) → k < length base.now.problem → (entries_at base.now.problem k).id < count }
    requires old { All (λ b. IsHead b.low × IsHead b.high) old.now }
    ensures rounds { S.rounds settler.new ≡ S.rounds settler.old }
    ensures ready { S.ready settler.new }
    ensures step { IfOk result (AreDifferencesBy limits base.now planned.now old.now count S.pairs) }
    ensures fault { IfErr result (FailBy limits base.now planned.now old.now (S.rounds settler.old)) }
    ensures words { IfOk result (λ v. AreWords v.problem v.bounds) }
{
    let problem = difference_problem(
        alloc,
        &base.problem,
        &planned.problem,
        base.bounds.as_slice(),
        planned.bounds.as_slice(),
        old,
    )?;
    let barrier = barrier_by(alloc, limits, &problem)?;
    let bounds = Listed::new(settle_by(alloc, limits, &problem, &barrier, settler)?);
    let heads = Listed::new(by_cell(alloc, count, &problem, bounds.as_slice())?);
    Ok(Solved {
        problem,
        bounds,
        heads,
    })
}
