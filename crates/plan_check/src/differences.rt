// The check of the listed differences of one step.
ghost use Rattle.std.specs.Prelude.{◌≡◌, ℕ, All, IfErr, IfOk, MatchOption, length, map};
ghost use Rattle.model_types.specs.{cell_count, variable_cells};
ghost use Rattle.step_problem.specs.{IsHead};
ghost use Rattle.problem_builder.specs.{AreGridHeads, ArePeriodTables};
ghost use Rattle.deck_problems.specs.{AreDecks};
ghost use Rattle.plan_chain.specs.{IsPlanTask};
ghost use Rattle.check_run.specs.{AllReach, IsFirstUnreached};
ghost use Rattle.plan_check.specs.{DifferencesFailBy, DifferencesHold, ReachesZero};

use crate::fault::{PlanCheckFault, in_part};
use check_run::{bounds_of, test_heads, unreached_side};
use deck_problems::Decks;
use model_types::{Listed, TimeStep};
use plan_chain::{PlanPart, PlanTask, by_cell};
use plan_listing::PlanPlace;
use plan_step::difference_problem;
use problem_builder::PeriodTables;
use problem_builder::start::NO_HEADS;
use std::alloc::Global;
use step_chain::{Solved, barrier_by};
use step_problem::{Bound, Side};

// The first cell with a constant head whose listed difference isn't as wide as 0, by its number, and its side.
fn first_apart(
    decks: &Decks,
    period: &PeriodTables,
    at: TimeStep,
    differences: &[Bound],
) -> Option<(u32, Side)>
    requires decks { AreDecks decks.now }
    requires period { (s : ℕ) × ArePeriodTables decks.now.first s at.period period.now }
    requires whole { length differences.now ≡ cell_count decks.now.first.grid }
    ensures { MatchOption result
        (AllReach decks.now at (ReachesZero differences.now))
        (λ f. IsFirstUnreached decks.now at (ReachesZero differences.now) f.0 f.1) }
{
    let _at = at;
    let count = decks.first.grid.cell_count();
    for cell in 0..count {
        let difference = differences[cell as usize];
        if let Some(side) = unreached_side(period.kind_at(cell), difference, NO_HEADS) {
            return Some((cell, side));
        }
    }
    None
}

/// The differences of a time by the certificate that the listed ones are, from both plans' steps and the old differences of all cells. `period` has the
/// kinds of the cells in the step's stress period.
pub(crate) fn check_differences(
    alloc: Global,
    task: &PlanTask,
    period: &PeriodTables,
    at: TimeStep,
    base: &Solved,
    planned: &Solved,
    old: &[Bound],
    listed: &[Bound],
) -> Result<Solved, PlanCheckFault>
    requires task { IsPlanTask task.now }
    requires period { (s : ℕ) × ArePeriodTables task.now.base.first s at.period period.now }
    requires as_many { length planned.now.problem ≡ length base.now.problem }
    requires cells { map (λ e. e.id) base.now.problem ≡ variable_cells task.now.base.first at.period }
    requires old { All (λ b. IsHead b.low × IsHead b.high) old.now }
    requires listed { AreGridHeads task.now.base.first listed.now }
    ensures step { IfOk result (DifferencesHold task.now at base.now planned.now old.now listed.now) }
    ensures fault { IfErr result (DifferencesFailBy task.now at base.now planned.now old.now listed.now) }
{
    let base_bounds = base.bounds.as_slice();
    let planned_bounds = planned.bounds.as_slice();
    let problem = difference_problem(
        alloc,
        &base.problem,
        &planned.problem,
        base_bounds,
        planned_bounds,
        old,
    )?;
    let barrier = barrier_by(alloc, task.limits, &problem)?;
    if let Some((cell, side)) = first_apart(&task.base, period, at, listed) {
        let place = PlanPlace::Cell(PlanPart::Differences, cell, side);
        return Err(PlanCheckFault::Fails(place));
    }
    let bounds = bounds_of(alloc, &problem, listed)?;
    let lent = bounds.as_slice();
    match test_heads(&problem, &barrier, lent) {
        Ok(()) => {
            let count = task.base.first.grid.cell_count() as usize;
            let heads = by_cell(alloc, count, &problem, lent)?;
            let bounds = Listed::new(bounds);
            let heads = Listed::new(heads);
            Ok(Solved {
                problem,
                bounds,
                heads,
            })
        }
        Err(fault) => Err(in_part(PlanPart::Differences, fault)),
    }
}
