// Decks with a plan's wells, which a file gives.
ghost use Rattle.std.specs.Prelude.{◌≡◌, IfOk, IfSome, length, option_map};
ghost use Rattle.record_lines.specs.{HasText};
ghost use Rattle.model_types.specs.declared.limits.Limits.{Limits};
ghost use Rattle.deck_problems.specs.{AreDecks};
ghost use Rattle.plan_wells.specs.{IsPlan, planned, plan_of};
ghost use Rattle.plan_chain.specs.{decks_with};
ghost use Rattle.model_types.specs.{HasSize};
ghost use Rattle.plan_run.specs.{IsPlannedBy, decks_planned, planned_in, second_planned};

use crate::copies::copy_model;
use deck_problems::Decks;
use model_types::{FlowModel, Limits};
use outside::TextFault;
use plan_wells::laws::{planned_are_alike, planned_are_valid};
use plan_wells::{Plan, read_plan, with_plan};
use std::alloc::Global;

/// A plan's wells, and decks with them.
#[derive(Drop)]
pub struct PlannedDecks {
    pub plan: Plan,
    pub decks: Decks,
}

// The plan that a file of WEL gives for a model.
fn plan_in(
    alloc: Global,
    limits: Limits,
    file: &str,
    bytes: &[u8],
    model: &FlowModel,
) -> Result<Plan, TextFault>
    requires { HasSize model.now.grid }
    ensures plan { HasText (λ p. p) result (plan_of limits file.now bytes.now model.now.grid (length model.now.periods)) }
    ensures form { IfOk result (IsPlan limits model.now.grid (length model.now.periods)) }
{
    let copy = copy_model(alloc, model)?;
    let (plan, copy) = read_plan(alloc, limits, file, bytes, copy)?;
    // one call, so that the proof has no part for each of its fields
    drop(copy);
    Ok(plan)
}

// A model like this one with a plan's wells.
fn planned_model(
    alloc: Global,
    model: &FlowModel,
    plan: &Plan,
    file: &str,
) -> Result<FlowModel, TextFault>
    requires long { length plan.now ≡ length model.now.periods }
    ensures { HasText (λ m. m) result (planned plan.now file.now model.now) }
{
    let copy = copy_model(alloc, model)?;
    with_plan(alloc, copy, plan, file)
}

// The same of a second model, if there is one.
fn planned_second(
    alloc: Global,
    second: Option<&FlowModel>,
    plan: &Plan,
    file: &str,
) -> Result<Option<FlowModel>, TextFault>
    requires long { IfSome (option_map (λ m. m.now) second) (λ m. length plan.now ≡ length m.periods) }
    ensures { HasText (λ m. m) result (second_planned plan.now file.now (option_map (λ m. m.now) second.entry)) }
{
    match second {
        None => Ok(None),
        Some(model) => {
            let planned = planned_model(alloc, model, plan, file)?;
            Ok(Some(planned))
        }
    }
}

// Decks like these with a plan's wells. `file` is the plan's file, for a refusal.
fn planned_decks(alloc: Global, decks: &Decks, plan: &Plan, file: &str) -> Result<Decks, TextFault>
    requires decks { AreDecks decks.now }
    requires plan { (limits : Limits) × IsPlan limits decks.now.first.grid (length decks.now.first.periods) plan.now }
    ensures planned { HasText (λ d. d) result (decks_planned plan.now file.now decks.now) }
    ensures are { IfOk result (λ d. d ≡ decks_with plan.now decks.now) }
    ensures valid { IfOk result AreDecks }
{
    planned_are_valid();
    planned_are_alike();
    let first = planned_model(alloc, &decks.first, plan, file)?;
    match planned_second(alloc, decks.second.as_ref(), plan, file) {
        Ok(second) => Ok(Decks { first, second }),
        Err(fault) => {
            // one call, so that the proof has no part for each of its fields
            drop(first);
            Err(fault)
        }
    }
}

/// The plan that a file of WEL gives for decks, and decks like them with its wells. `file` is the file's name, for refusals.
///
/// # Errors
/// As `read_plan`; then TooManyEntries, with line 0, where a stress period would have more than 4,194,304 wells.
pub fn read_planned(
    alloc: Global,
    limits: Limits,
    file: &str,
    bytes: &[u8],
    decks: &Decks,
) -> Result<PlannedDecks, TextFault>
    requires { AreDecks decks.now }
    ensures reads { HasText (λ p. p) result (planned_in limits file.now decks.now bytes.now) }
    ensures planned { IfOk result (IsPlannedBy limits decks.now) }
{
    let plan = plan_in(alloc, limits, file, bytes, &decks.first)?;
    match planned_decks(alloc, decks, &plan, file) {
        Ok(decks) => Ok(PlannedDecks { plan, decks }),
        Err(fault) => {
            drop(plan);
            Err(fault)
        }
    }
}
