// The data of a step before it is checked: its constant heads, its problem and the problem's barrier.
ghost use Rattle.std.specs.Prelude.{◌≡◌, ◌≤◌, Contains, IfOk, IfErr};
ghost use Rattle.model_types.specs.{times};
ghost use Rattle.problem_builder.specs.{AreGridHeads};
ghost use Rattle.deck_problems.specs.{AreDecks, AreDeckTables, digits_of};
ghost use Rattle.check_run.specs.{ArePosed, IsUnposed};

use crate::listing::CheckFault;
use deck_problems::{DeckTables, Decks, problem_for};
use model_types::{Limits, Listed, TimeStep};
use std::alloc::Global;
use step_chain::barrier_by;
use step_problem::{Barrier, Bound, Problem};

/// The constant heads of a time by cell number, its problem, and the problem's barrier.
#[derive(Drop)]
pub struct Posed {
    pub constant_heads: Listed<Bound>,
    pub problem: Problem,
    pub barrier: Barrier,
}

/// The constant heads, the problem and the barrier of the step of a time, from the heads of all cells before it.
pub(crate) fn pose(
    alloc: Global,
    limits: Limits,
    decks: &Decks,
    tables: &mut DeckTables,
    at: TimeStep,
    old: &[Bound],
) -> Result<Posed, CheckFault>
    requires decks { AreDecks decks.now }
    requires time { Contains (times decks.now.first) at }
    requires old { AreGridHeads decks.now.first old.now }
    requires digits { digits_of tables.old.first ≤ 18 }
    requires tables { AreDeckTables decks.now (digits_of tables.old.first) tables.old }
    ensures tables { AreDeckTables decks.now (digits_of tables.old.first) tables.new }
    ensures there { IfOk result (λ _. tables.new.first.period.period ≡ at.period) }
    ensures posed { IfOk result (ArePosed limits decks.now (digits_of tables.old.first) at old.now) }
    ensures fault { IfErr result (IsUnposed limits decks.now (digits_of tables.old.first) at old.now) }
{
    let made = problem_for(alloc, decks, tables, at, old)?;
    let barrier = barrier_by(alloc, limits, &made.problem)?;
    Ok(Posed {
        constant_heads: made.constant_heads,
        problem: made.problem,
        barrier,
    })
}
