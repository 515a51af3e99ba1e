// The check of a plan's listing.
ghost use Rattle.std.specs.Prelude.{◌≡◌, true, IfOk};
ghost use Rattle.zone_pairs.specs.{pairs_in};
ghost use Rattle.deck_problems.specs.{AreDeckTables};
ghost use Rattle.exact_histories.specs.{HaveOneHistory};
ghost use Rattle.plan_chain.specs.{IsPlanTask};
ghost use Rattle.plan_listing.specs.{AreListedPlan};
ghost use Rattle.plan_run.specs.{EnclosesPairs};
ghost use Rattle.plan_check.specs.declared.verdict.PlanListingVerdict.TheVariants.{Certified};
ghost use Rattle.plan_check.specs.{IsPlanVerdict, IsVerdictAt};

use crate::before::{heads_before, step_at};
use crate::fault::PlanCheckFault;
use crate::laws::{certified_plans_enclose, one_plan_verdict};
use crate::step::check_step;
use crate::verdict::PlanListingVerdict;
use deck_problems::DeckTables;
use model_types::{TimeStep, times};
use plan_chain::{PlanTask, start_heads};
use plan_listing::PlanListing;
use std::alloc::{AllocError, Global};

// The verdict on a listing from a step's fault at its time.
fn verdict_at(at: TimeStep, fault: PlanCheckFault) -> Result<PlanListingVerdict, AllocError>
    ensures { IfOk result (IsVerdictAt at fault) }
{
    match fault {
        PlanCheckFault::Fails(place) => Ok(PlanListingVerdict::Fails(at, place)),
        PlanCheckFault::Refused(part, refusal) => Ok(PlanListingVerdict::Refused(
            at, part, refusal,
        )),
        PlanCheckFault::Memory => Err(AllocError),
    }
}

// Checks a listing step by step, by tables that the steps share.
fn check_steps(
    alloc: Global,
    task: &PlanTask,
    base_tables: &mut DeckTables,
    planned_tables: &mut DeckTables,
    listing: &PlanListing,
) -> Result<PlanListingVerdict, AllocError>
    requires task { IsPlanTask task.now }
    requires quick { task.now.quick ≡ true }
    requires listing { AreListedPlan task.now.base.first (pairs_in task.now.base.first task.now.zones) listing.now }
    requires base_tables { AreDeckTables task.now.base task.now.digits base_tables.old }
    requires planned_tables { AreDeckTables task.now.planned task.now.digits planned_tables.old }
    ensures { IfOk result (IsPlanVerdict task.now listing.now) }
{
    let start = start_heads(alloc, task)?;
    let times = times(alloc, &task.base.first)?;
    for (index, at) in times.as_slice().iter().enumerate() {
        let old = heads_before(&start, listing, index);
        match check_step(
            alloc,
            task,
            base_tables,
            planned_tables,
            *at,
            old,
            step_at(listing, index),
        ) {
            Ok(()) => {}
            Err(fault) => return verdict_at(*at, fault),
        }
    }
    Ok(PlanListingVerdict::Certified)
}

/// Checks a listing of what a plan's wells do to a deck, or to all models between two, step by step, each from the listed heads and differences of the
/// one before it, the first from STRT and 0. Each of a step's three pairs may be any certificate, as in a quick task. The first place of a step that
/// fails, or the first refusal of a part of it, is the verdict.
pub fn check_plan_listing(
    alloc: Global,
    task: &PlanTask,
    listing: &PlanListing,
) -> Result<PlanListingVerdict, AllocError>
    requires task { IsPlanTask task.now }
    requires quick { task.now.quick ≡ true }
    requires listing { AreListedPlan task.now.base.first (pairs_in task.now.base.first task.now.zones) listing.now }
    // The listing's one verdict.
    ensures verdict { IfOk result (IsPlanVerdict task.now listing.now) }
    ensures only { IfOk result (λ v. (other : PlanListingVerdict) → IsPlanVerdict task.now listing.now other → other ≡ v) }
    // Where it is certified, every two histories of the two plans in one weather lie within it, whoever wrote it.
    ensures encloses { IfOk result (λ v. v ≡ Certified → EnclosesPairs task.now listing.now) }
    // And each plan has exactly one history, or one in each choice between two decks.
    ensures base { IfOk result (λ v. v ≡ Certified → HaveOneHistory task.now.base) }
    ensures planned { IfOk result (λ v. v ≡ Certified → HaveOneHistory task.now.planned) }
{
    one_plan_verdict();
    certified_plans_enclose();
    let mut base_tables = DeckTables::new(alloc, &task.base, task.digits)?;
    let mut planned_tables = DeckTables::new(alloc, &task.planned, task.digits)?;
    check_steps(alloc, task, &mut base_tables, &mut planned_tables, listing)
}
