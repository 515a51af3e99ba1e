// The check of one step of a plan's listing.
ghost use Rattle.std.specs.Prelude.{◌≡◌, ◌≤◌, ℕ, true, Contains, IfErr, IfOk};
ghost use Rattle.model_types.specs.{times};
ghost use Rattle.problem_builder.specs.{AreGridHeads, ArePeriodTables};
ghost use Rattle.zone_pairs.specs.{pairs_in};
ghost use Rattle.deck_problems.specs.{AreDecks, AreDeckTables};
ghost use Rattle.check_run.specs.{AreChecked, HeadsFailBy};
ghost use Rattle.plan_chain.specs.{ArePlanHeads, IsPlanTask};
ghost use Rattle.plan_listing.specs.{IsListedPlanStep};
ghost use Rattle.plan_check.specs.{BaseHolds, PlannedHolds, FailsBy, Passes, lent_heads};

use crate::before::HeadsBefore;
use crate::differences::check_differences;
use crate::fault::{PlanCheckFault, in_part};
use crate::flows::test_flows;
use check_run::{CheckFault, check_heads};
use deck_problems::{DeckTables, Decks};
use model_types::{Limits, TimeStep};
use plan_chain::laws::plan_steps_enclose;
use plan_chain::{PlanPart, PlanSolved, PlanTask};
use plan_listing::ListedPlanStep;
use plan_sources::laws::plan_steps_have_flows;
use problem_builder::PeriodTables;
use std::alloc::Global;
use step_chain::Solved;
use step_chain::laws::heads_fit;
use step_problem::Bound;

// The heads of one plan's decks, by this many digits.
fn check_deck(
    alloc: Global,
    limits: Limits,
    digits: u32,
    decks: &Decks,
    tables: &mut DeckTables,
    at: TimeStep,
    old: &[Bound],
    heads: &[Bound],
) -> Result<Solved, CheckFault>
    requires decks { AreDecks decks.now }
    requires time { Contains (times decks.now.first) at }
    requires old { AreGridHeads decks.now.first old.now }
    requires heads { AreGridHeads decks.now.first heads.now }
    requires digits { digits ≤ 18 }
    requires tables { AreDeckTables decks.now digits tables.old }
    ensures tables { AreDeckTables decks.now digits tables.new }
    ensures there { IfOk result (λ _. tables.new.first.period.period ≡ at.period) }
    ensures step { IfOk result (AreChecked limits decks.now digits at old.now heads.now) }
    ensures fault { IfErr result (HeadsFailBy limits decks.now digits at old.now heads.now) }
{
    let _digits = digits;
    check_heads(alloc, limits, decks, tables, at, old, heads)
}

// Tests the differences and the flows of a step, once both plans' heads are tested. `period` has the kinds of the cells in its stress period.
fn check_rest<'a>(
    alloc: Global,
    task: &PlanTask,
    period: &PeriodTables,
    at: TimeStep,
    old: HeadsBefore<'a>,
    listed: &ListedPlanStep,
    base: Solved,
    planned: Solved,
) -> Result<(), PlanCheckFault>
    requires task { IsPlanTask task.now }
    requires quick { task.now.quick ≡ true }
    requires period { (s : ℕ) × ArePeriodTables task.now.base.first s at.period period.now }
    requires time { Contains (times task.now.base.first) at }
    requires old { ArePlanHeads task.now (lent_heads old) }
    requires listed { IsListedPlanStep task.now.base.first (pairs_in task.now.base.first task.now.zones at.period) at listed.now }
    requires base { BaseHolds task.now at (lent_heads old) listed.now base }
    requires planned { PlannedHolds task.now at (lent_heads old) listed.now planned }
    ensures passes { IfOk result (λ _. Passes task.now at (lent_heads old.entry) listed.now) }
    ensures fault { IfErr result (FailsBy task.now at (lent_heads old.entry) listed.now) }
{
    heads_fit();
    plan_steps_enclose();
    plan_steps_have_flows();
    match check_differences(
        alloc,
        task,
        period,
        at,
        &base,
        &planned,
        old.differences,
        listed.differences.as_slice(),
    ) {
        Ok(differences) => {
            let solved = PlanSolved {
                base,
                planned,
                differences,
            };
            let tested = test_flows(alloc, task, &solved, &listed.flows);
            // one call, so that the proof has no part for each of its fields
            drop(solved);
            tested
        }
        Err(fault) => {
            drop(base);
            drop(planned);
            Err(fault)
        }
    }
}

// Tests the heads with the plan's wells and all that comes after them, once those without them are tested.
fn check_planned<'a>(
    alloc: Global,
    task: &PlanTask,
    period: &PeriodTables,
    planned_tables: &mut DeckTables,
    at: TimeStep,
    old: HeadsBefore<'a>,
    listed: &ListedPlanStep,
    base: Solved,
) -> Result<(), PlanCheckFault>
    requires task { IsPlanTask task.now }
    requires quick { task.now.quick ≡ true }
    requires period { (s : ℕ) × ArePeriodTables task.now.base.first s at.period period.now }
    requires time { Contains (times task.now.base.first) at }
    requires old { ArePlanHeads task.now (lent_heads old) }
    requires listed { IsListedPlanStep task.now.base.first (pairs_in task.now.base.first task.now.zones at.period) at listed.now }
    requires planned_tables { AreDeckTables task.now.planned task.now.digits planned_tables.old }
    requires base { BaseHolds task.now at (lent_heads old) listed.now base }
    ensures planned_tables { AreDeckTables task.now.planned task.now.digits planned_tables.new }
    ensures passes { IfOk result (λ _. Passes task.now at (lent_heads old.entry) listed.now) }
    ensures fault { IfErr result (FailsBy task.now at (lent_heads old.entry) listed.now) }
{
    let heads = listed.planned.as_slice();
    match check_deck(
        alloc,
        task.limits,
        task.digits,
        &task.planned,
        planned_tables,
        at,
        old.planned,
        heads,
    ) {
        Ok(planned) => check_rest(alloc, task, period, at, old, listed, base, planned),
        Err(fault) => {
            drop(base);
            Err(in_part(PlanPart::Planned, fault))
        }
    }
}

/// Checks a listed step of a time from the heads and the differences before it: the heads without the plan's wells, those with them, the differences,
/// what each term gives more, and what flows more between zones. The tables are those of the run, and move to the step's period.
pub(crate) fn check_step<'a>(
    alloc: Global,
    task: &PlanTask,
    base_tables: &mut DeckTables,
    planned_tables: &mut DeckTables,
    at: TimeStep,
    old: HeadsBefore<'a>,
    listed: &ListedPlanStep,
) -> Result<(), PlanCheckFault>
    requires task { IsPlanTask task.now }
    requires quick { task.now.quick ≡ true }
    requires time { Contains (times task.now.base.first) at }
    requires old { ArePlanHeads task.now (lent_heads old) }
    requires listed { IsListedPlanStep task.now.base.first (pairs_in task.now.base.first task.now.zones at.period) at listed.now }
    requires base_tables { AreDeckTables task.now.base task.now.digits base_tables.old }
    requires planned_tables { AreDeckTables task.now.planned task.now.digits planned_tables.old }
    ensures base_tables { AreDeckTables task.now.base task.now.digits base_tables.new }
    ensures planned_tables { AreDeckTables task.now.planned task.now.digits planned_tables.new }
    ensures passes { IfOk result (λ _. Passes task.now at (lent_heads old.entry) listed.now) }
    ensures fault { IfErr result (FailsBy task.now at (lent_heads old.entry) listed.now) }
{
    let heads = listed.base.as_slice();
    match check_deck(
        alloc,
        task.limits,
        task.digits,
        &task.base,
        base_tables,
        at,
        old.base,
        heads,
    ) {
        Ok(base) => {
            let period = &base_tables.first.period;
            check_planned(alloc, task, period, planned_tables, at, old, listed, base)
        }
        Err(fault) => Err(in_part(PlanPart::Base, fault)),
    }
}
