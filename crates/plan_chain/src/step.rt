// A time step of two plans in one weather.
ghost use Rattle.std.specs.Prelude.{◌≡◌, ◌≤◌, ℕ, Contains, IfOk, IfErr};
ghost use Rattle.model_types.specs.{cell_count, times};
ghost use Rattle.problem_builder.specs.{AreGridHeads, IsActive, IsCellNamed};
ghost use Rattle.deck_problems.specs.{AreDecks, AreDeckTables};
ghost use Rattle.step_chain.specs.{FailsBy, IsStepBy};
ghost use Rattle.plan_chain.specs.{ArePlanHeads, FailsAt, IsBaseStep, IsPlanStep, IsPlanTask, IsPlannedDeckStep, heads_in, plan_pairs};

use crate::differences::next_differences;
use deck_problems::{DeckTables, Decks};
use model_types::{Limits, Listed, TimeStep};
use plan_wells::Plan;
use std::alloc::Global;
use step_chain::{Solved, StepFault, next_step_with};
use step_problem::{Bound, Settler};

/// What is to be listed of a plan, by these limits: the decks, the decks with the plan's wells, these wells, the digits s of conductances, the zone of
/// each cell, if there is a zone file, the number of plain rounds in which each pair must settle, and whether it may be any that is a certificate.
#[derive(Drop)]
pub struct PlanTask {
    pub limits: Limits,
    pub base: Decks,
    pub planned: Decks,
    pub plan: Plan,
    pub digits: u32,
    pub zones: Option<Listed<u32>>,
    pub rounds: u32,
    pub quick: bool,
}

/// The heads of all cells of the grid at one time, by cell number, in units of 10^-9: without the plan's wells, with them, and their differences, base
/// less planned.
#[derive(Drop)]
pub struct PlanHeads {
    pub base: Listed<Bound>,
    pub planned: Listed<Bound>,
    pub differences: Listed<Bound>,
}

/// A step without the plan's wells, with them, and their differences.
#[derive(Drop)]
pub struct PlanSolved {
    pub base: Solved,
    pub planned: Solved,
    pub differences: Solved,
}

/// One of the three pairs of a step, in their order.
#[derive(Clone, Copy)]
pub enum PlanPart {
    Base,
    Planned,
    Differences,
}

/// Why a step isn't solved: the first of its pairs that isn't, and its fault.
#[derive(Drop)]
pub struct PlanFault {
    pub part: PlanPart,
    pub fault: StepFault,
}

/// The number of cells of a task's grid.
pub(crate) fn cell_count(task: &PlanTask) -> usize
    requires { IsPlanTask task.now }
    ensures { result ≡ cell_count task.now.base.first.grid }
{
    task.base.first.grid.cell_count() as usize
}

// The step of one plan's decks, by this many digits.
fn deck_step<S: Settler>(
    alloc: Global,
    limits: Limits,
    digits: u32,
    decks: &Decks,
    tables: &mut DeckTables,
    at: TimeStep,
    old: &[Bound],
    settler: &mut S,
) -> Result<Solved, StepFault>
    requires ready { S.ready settler.old }
    requires decks { AreDecks decks.now }
    requires time { Contains (times decks.now.first) at }
    requires old { AreGridHeads decks.now.first old.now }
    requires digits { digits ≤ 18 }
    requires tables { AreDeckTables decks.now digits tables.old }
    ensures rounds { S.rounds settler.new ≡ S.rounds settler.old }
    ensures ready { S.ready settler.new }
    ensures tables { AreDeckTables decks.now digits tables.new }
    ensures step { IfOk result (IsStepBy limits decks.now digits at old.now S.pairs) }
    ensures fault { IfErr result (FailsBy limits decks.now digits at old.now (S.rounds settler.old)) }
    ensures heads { IfOk result (λ x. AreGridHeads decks.now.first x.heads) }
    ensures named { IfOk result (λ x. (c : ℕ) → IsCellNamed x.problem c → IsActive decks.now.first c) }
{
    let _digits = digits;
    next_step_with(alloc, limits, decks, tables, at, old, settler)
}

// The differences of a time, once both plans' steps are solved.
fn with_differences<S: Settler>(
    alloc: Global,
    task: &PlanTask,
    at: TimeStep,
    old: &PlanHeads,
    base: Solved,
    planned: Solved,
    settler: &mut S,
) -> Result<PlanSolved, PlanFault>
    requires ready { S.ready settler.old }
    requires rounds { S.rounds settler.old ≡ task.now.rounds }
    requires pairs { S.pairs ≡ plan_pairs task.now }
    requires task { IsPlanTask task.now }
    requires old { ArePlanHeads task.now old.now }
    requires base { IsBaseStep task.now at old.now base }
    requires planned { IsPlannedDeckStep task.now at old.now planned }
    requires base_heads { AreGridHeads task.now.base.first base.heads }
    requires planned_heads { AreGridHeads task.now.planned.first planned.heads }
    requires named { (c : ℕ) → IsCellNamed base.problem c → IsActive task.now.base.first c }
    ensures ready { S.ready settler.new }
    ensures rounds { S.rounds settler.new ≡ S.rounds settler.old }
    ensures step { IfOk result (IsPlanStep task.now at old.now) }
    ensures heads { IfOk result (λ v. ArePlanHeads task.now (heads_in v)) }
    ensures fault { IfErr result (FailsAt task.now at old.now) }
{
    let _time = at;
    match next_differences(
        alloc,
        task.limits,
        &base,
        &planned,
        old.differences.as_slice(),
        cell_count(task),
        settler,
    ) {
        Ok(differences) => Ok(PlanSolved {
            base,
            planned,
            differences,
        }),
        Err(fault) => {
            drop(base);
            drop(planned);
            Err(PlanFault {
                part: PlanPart::Differences,
                fault,
            })
        }
    }
}

/// The step of a time, from the heads and the differences of all cells before it: the heads without the plan's wells are settled first, then the heads
/// with them, then the differences. The tables are those of the run, and move to the step's period.
pub fn next_plan_step<S: Settler>(
    alloc: Global,
    task: &PlanTask,
    base_tables: &mut DeckTables,
    planned_tables: &mut DeckTables,
    at: TimeStep,
    old: &PlanHeads,
    settler: &mut S,
) -> Result<PlanSolved, PlanFault>
    requires ready { S.ready settler.old }
    requires rounds { S.rounds settler.old ≡ task.now.rounds }
    requires pairs { S.pairs ≡ plan_pairs task.now }
    requires task { IsPlanTask task.now }
    requires time { Contains (times task.now.base.first) at }
    requires old { ArePlanHeads task.now old.now }
    requires base_tables { AreDeckTables task.now.base task.now.digits base_tables.old }
    requires planned_tables { AreDeckTables task.now.planned task.now.digits planned_tables.old }
    ensures ready { S.ready settler.new }
    ensures rounds { S.rounds settler.new ≡ S.rounds settler.old }
    ensures base_tables { AreDeckTables task.now.base task.now.digits base_tables.new }
    ensures planned_tables { AreDeckTables task.now.planned task.now.digits planned_tables.new }
    ensures step { IfOk result (IsPlanStep task.now at old.now) }
    ensures heads { IfOk result (λ v. ArePlanHeads task.now (heads_in v)) }
    ensures fault { IfErr result (FailsAt task.now at old.now) }
{
    match deck_step(
        alloc,
        task.limits,
        task.digits,
        &task.base,
        base_tables,
        at,
        old.base.as_slice(),
        settler,
    ) {
        Ok(base) => match deck_step(
            alloc,
            task.limits,
            task.digits,
            &task.planned,
            planned_tables,
            at,
            old.planned.as_slice(),
            settler,
        ) {
            Ok(planned) => with_differences(alloc, task, at, old, base, planned, settler),
            Err(fault) => {
                drop(base);
                Err(PlanFault {
                    part: PlanPart::Planned,
                    fault,
                })
            }
        },
        Err(fault) => Err(PlanFault {
            part: PlanPart::Base,
            fault,
        }),
    }
}
