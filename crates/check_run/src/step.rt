// The check of one listed step.
ghost use Rattle.std.specs.Prelude.{◌≡◌, ◌≤◌, Contains, IfOk, IfErr, option_map};
ghost use Rattle.model_types.specs.{times};
ghost use Rattle.problem_builder.specs.{AreGridHeads};
ghost use Rattle.zone_pairs.specs.{pairs_in, AreZones};
ghost use Rattle.listing_io.specs.{AreFlows};
ghost use Rattle.deck_problems.specs.{AreDecks, AreDeckTables, digits_of};
ghost use Rattle.listing_run.specs.{BoundsMoves};
ghost use Rattle.check_run.specs.{FailsBy, Passes, checked_task, step_of};

use crate::constants::first_unreached;
use crate::flows::test_flows;
use crate::listing::CheckFault;
use crate::posed::pose;
use crate::terms::test_terms;
use crate::variables::{bounds_of, test_heads};
use budget_bounds::Budget;
use budget_bounds::laws::{cover_encloses, heads_within};
use deck_problems::laws::constant_pairs;
use deck_problems::{DeckTables, Decks};
use model_types::{Limits, TimeStep};
use std::alloc::Global;
use step_problem::{Bound, Place, ZoneFlow};

/// Checks the listed heads, budget and flows between zones of a time from the heads of all cells before it. `tables` are those of the
/// run, and move to the step's period.
pub(crate) fn check_listed(
    alloc: Global,
    limits: Limits,
    decks: &Decks,
    tables: &mut DeckTables,
    at: TimeStep,
    old: &[Bound],
    zones: Option<&[u32]>,
    heads: &[Bound],
    listed: &Budget,
    flows: &[ZoneFlow],
) -> Result<(), CheckFault>
    requires decks { AreDecks decks.now }
    requires time { Contains (times decks.now.first) at }
    requires old { AreGridHeads decks.now.first old.now }
    requires heads { AreGridHeads decks.now.first heads.now }
    requires zones { AreZones decks.now.first (option_map (λ z. z.now) zones) }
    requires flows { AreFlows (pairs_in decks.now.first (option_map (λ z. z.now) zones) at.period) flows.now }
    requires digits { digits_of tables.old.first ≤ 18 }
    requires tables { AreDeckTables decks.now (digits_of tables.old.first) tables.old }
    ensures tables { AreDeckTables decks.now (digits_of tables.old.first) tables.new }
    ensures passes { IfOk result
        (λ _. Passes limits decks.now (digits_of tables.old.first) (option_map (λ z. z.now) zones.entry) at old.now
        (record { heads = heads.now; budget = listed.now; zones = flows.now })) }
    ensures fault { IfErr result
        (FailsBy limits decks.now (digits_of tables.old.first) (option_map (λ z. z.now) zones.entry) at old.now
        (record { heads = heads.now; budget = listed.now; zones = flows.now })) }
    // Every solution from exact heads within the old ones lies within the listed bounds.
    ensures encloses { IfOk result
        (λ _. BoundsMoves (checked_task decks.now (digits_of tables.old.first) (option_map (λ z. z.now) zones.entry)) at old.now
        (step_of at (record { heads = heads.now; budget = listed.now; zones = flows.now }))) }
{
    constant_pairs();
    heads_within();
    cover_encloses();
    let posed = pose(alloc, limits, decks, tables, at, old)?;
    let constant_heads = posed.constant_heads.as_slice();
    if let Some((cell, side)) = first_unreached(
        decks,
        &tables.first.period,
        at,
        constant_heads,
        heads,
    ) {
        return Err(CheckFault::Fails(Place::Cell(cell, side)));
    }
    let bounds = bounds_of(alloc, &posed.problem, heads)?;
    test_heads(&posed.problem, &posed.barrier, bounds.as_slice())?;
    test_terms(&posed.problem, bounds.as_slice(), listed)?;
    test_flows(alloc, &decks.first, zones, &posed.problem, heads, flows)
}
