// The check of the heads of one listed step.
ghost use Rattle.std.specs.Prelude.{◌≡◌, ◌≤◌, ℕ, length, Contains, IfOk, IfErr};
ghost use Rattle.model_types.specs.{cell_count, times};
ghost use Rattle.problem_builder.specs.{AreGridHeads, ArePeriodTables};
ghost use Rattle.deck_problems.specs.{AreConstantHeadsFor, AreDecks, AreDeckTables, digits_of};
ghost use Rattle.step_chain.specs.{AreHeadsOf};
ghost use Rattle.check_run.specs.{AreChecked, HeadsFailBy, variable_bounds};

use crate::constants::first_unreached;
use crate::listing::CheckFault;
use crate::posed::pose;
use crate::variables::{bounds_of, test_heads};
use deck_problems::{DeckTables, Decks};
use model_types::{Kind, Limits, Listed, TimeStep};
use problem_builder::PeriodTables;
use std::alloc::Global;
use step_chain::Solved;
use step_problem::{Bound, Place};

// The heads of all cells, from the constant heads of a time and the listed heads of its variable cells. It takes no memory.
fn with_listed(
    decks: &Decks,
    period: &PeriodTables,
    at: TimeStep,
    constant_heads: Listed<Bound>,
    listed: &[Bound],
) -> Listed<Bound>
    requires decks { AreDecks decks.now }
    requires period { (s : ℕ) × ArePeriodTables decks.now.first s at.period period.now }
    requires constant { AreConstantHeadsFor decks.now at constant_heads }
    requires whole { length listed.now ≡ cell_count decks.now.first.grid }
    ensures { AreHeadsOf decks.now at (variable_bounds decks.now at listed.now) result }
{
    let _at = at;
    let mut heads = constant_heads;
    let count = decks.first.grid.cell_count();
    for cell in 0..count {
        if let Kind::Variable = period.kind_at(cell) {
            heads.set(cell as usize, listed[cell as usize]);
        }
    }
    heads
}

/// The step of a time by the certificate that its listed heads are, from the heads of all cells before it; or the first cell whose listed heads are none.
/// `tables` are those of the run, and move to the step's period.
pub fn check_heads(
    alloc: Global,
    limits: Limits,
    decks: &Decks,
    tables: &mut DeckTables,
    at: TimeStep,
    old: &[Bound],
    heads: &[Bound],
) -> Result<Solved, CheckFault>
    requires decks { AreDecks decks.now }
    requires time { Contains (times decks.now.first) at }
    requires old { AreGridHeads decks.now.first old.now }
    requires heads { AreGridHeads decks.now.first heads.now }
    requires digits { digits_of tables.old.first ≤ 18 }
    requires tables { AreDeckTables decks.now (digits_of tables.old.first) tables.old }
    ensures tables { AreDeckTables decks.now (digits_of tables.old.first) tables.new }
    ensures there { IfOk result (λ _. tables.new.first.period.period ≡ at.period) }
    ensures step { IfOk result (AreChecked limits decks.now (digits_of tables.old.first) at old.now heads.now) }
    ensures fault { IfErr result (HeadsFailBy limits decks.now (digits_of tables.old.first) at old.now heads.now) }
{
    let posed = pose(alloc, limits, decks, tables, at, old)?;
    let constant_heads = posed.constant_heads.as_slice();
    if let Some((cell, side)) = first_unreached(
        decks,
        &tables.first.period,
        at,
        constant_heads,
        heads,
    ) {
        return Err(CheckFault::Fails(Place::Cell(cell, side)));
    }
    let bounds = bounds_of(alloc, &posed.problem, heads)?;
    test_heads(&posed.problem, &posed.barrier, bounds.as_slice())?;
    let bounds = Listed::new(bounds);
    let heads = with_listed(decks, &tables.first.period, at, posed.constant_heads, heads);
    Ok(Solved {
        problem: posed.problem,
        bounds,
        heads,
    })
}
