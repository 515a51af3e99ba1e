// The problem of a step of one deck, or of two.
ghost use Rattle.std.specs.Prelude.{◌≡◌, ◌≤◌, Contains, IfOk, IfErr, OnOk, Some};
ghost use Rattle.step_problem.specs.{IsProblem};
ghost use Rattle.model_types.specs.{times, IsModel};
ghost use Rattle.problem_builder.specs.{AreGridHeads, IsBuildFault, BothOrNone};
ghost use Rattle.problem_hull.specs.{IsHull, AreAlike as AreProblemsAlike};
ghost use Rattle.deck_problems.specs.{AreDecks, AreConstantHeadsFor, AreDeckTables, digits_of, EnclosesChoices, HasCellsOf, IsHullRefusal, AreRunTables};
ghost use Rattle.deck_problems.specs.{AreTablesOf, IsModelProblem, IsProblemFor, IsFaultFor};

use crate::decks::Decks;
use crate::kept::RunTables;
use crate::laws::problems_are_alike;
use crate::start::hull_bounds;
use model_types::{FlowModel, Listed, TimeStep};
use problem_builder::{StepTables, build_with};
use problem_hull::{HullFault, hull};
use std::alloc::{AllocError, Global};
use step_problem::{Bound, BoundFault, Problem};

/// A step's problem, and for each cell of the grid the bounds of its head if that is constant, in units of 10^-9, and
/// zeros in any other cell.
#[derive(Drop)]
pub struct DeckProblem {
    pub problem: Problem,
    pub constant_heads: Listed<Bound>,
}

// The hull of two problems that are alike.
fn hull_problem(alloc: Global, p: &Problem, q: &Problem) -> Result<Problem, BoundFault>
    requires alike { AreProblemsAlike p.now q.now }
    ensures hull { IfOk result (λ r. IsHull p.now q.now r) }
    ensures fault { IfErr result (IsHullRefusal p.now q.now) }
{
    match hull(alloc, p, q) {
        Ok(problem) => Ok(problem),
        Err(HullFault::NotAlike) => unreachable!(),
        Err(HullFault::NoBound(refusal)) => Err(BoundFault::NoBound(refusal)),
        Err(HullFault::Memory) => Err(BoundFault::Memory),
    }
}

/// The problem and the constant heads of a step, from the heads of all cells before it, one bound for each cell of the
/// grid: those of the one deck, or the hulls of both decks' ones. It is refused where the first deck's problem is, then
/// where the second deck's problem is, then where a sum of the hull is too large. `tables` are those of the run, and
/// move to the step's period.
pub fn problem_for(
    alloc: Global,
    decks: &Decks,
    tables: &mut DeckTables,
    at: TimeStep,
    old: &[Bound],
) -> Result<DeckProblem, BoundFault>
    requires decks { AreDecks decks.now }
    requires time { Contains (times decks.now.first) at }
    requires old { AreGridHeads decks.now.first old.now }
    requires digits { digits_of tables.old.first ≤ 18 }
    requires tables { AreDeckTables decks.now (digits_of tables.old.first) tables.old }
    ensures tables { AreDeckTables decks.now (digits_of tables.old.first) tables.new }
    ensures there { OnOk result (tables.new.first.period.period ≡ at.period) }
    ensures problem { IfOk result (λ x. IsProblemFor decks.now (digits_of tables.old.first) at old.now x.problem) }
    ensures constant { IfOk result (λ x. AreConstantHeadsFor decks.now at x.constant_heads) }
    ensures fault { IfErr result (IsFaultFor decks.now (digits_of tables.old.first) at old.now) }
    ensures cells { IfOk result (λ x. HasCellsOf decks.now.first at x.problem) }
    // From all exact heads within the old ones, it encloses each choice of the step.
    ensures encloses { IfOk result (λ x. EnclosesChoices decks.now (digits_of tables.old.first) at old.now x.problem) }
{
    let s = tables.first.tables.digits;
    let first = model_problem(alloc, &decks.first, &mut tables.first, at, old)?;
    let Some(model) = &decks.second else {
        return Ok(first);
    };
    let second = second_problem(alloc, model, &mut tables.second, at, old, s)?;
    problems_are_alike();
    let problem = hull_problem(alloc, &first.problem, &second.problem)?;
    problem.recall_conditions();
    Ok(DeckProblem {
        problem,
        constant_heads: hull_bounds(first.constant_heads, second.constant_heads.as_slice()),
    })
}

// The problem and the constant heads of one model.

// The problem of a model's step, and its constant heads. `tables` move to the step's period.
pub(crate) fn model_problem(
    alloc: Global,
    model: &FlowModel,
    tables: &mut RunTables,
    at: TimeStep,
    old: &[Bound],
) -> Result<DeckProblem, BoundFault>
    requires model { IsModel model.now }
    requires time { Contains (times model.now) at }
    requires old { AreGridHeads model.now old.now }
    requires digits { digits_of tables.old ≤ 18 }
    requires tables { AreRunTables model.now tables.old }
    ensures digits { digits_of tables.new ≡ digits_of tables.old }
    ensures tables { AreRunTables model.now tables.new }
    ensures there { OnOk result (tables.new.period.period ≡ at.period) }
    ensures problem { IfOk result (IsModelProblem model.now (digits_of tables.old) at old.now) }
    ensures fault { IfErr result (IsBuildFault model.now (digits_of tables.old) at old.now) }
{
    tables.go_to(alloc, model, at.period)?;
    let step = StepTables::new(alloc, model, &tables.period, at)?;
    let problem = build_with(alloc, model, &tables.tables, &tables.period, &step, at, old)?;
    Ok(DeckProblem {
        problem,
        constant_heads: step.heads,
    })
}

// The same of the second deck.
pub(crate) fn second_problem(
    alloc: Global,
    model: &FlowModel,
    tables: &mut Option<RunTables>,
    at: TimeStep,
    old: &[Bound],
    s: u32,
) -> Result<DeckProblem, BoundFault>
    requires model { IsModel model.now }
    requires time { Contains (times model.now) at }
    requires old { AreGridHeads model.now old.now }
    requires digits { s ≤ 18 }
    requires tables { BothOrNone (λ m r. AreTablesOf m s r) (Some model.now) tables.old }
    ensures tables { BothOrNone (λ m r. AreTablesOf m s r) (Some model.now) tables.new }
    ensures problem { IfOk result (IsModelProblem model.now s at old.now) }
    ensures fault { IfErr result (IsBuildFault model.now s at old.now) }
{
    let _s = s;
    match tables {
        Some(tables) => model_problem(alloc, model, tables, at, old),
        None => unreachable!(),
    }
}

// The tables of each deck of a run.

/// The tables that all steps of a run share, for each of its decks.
pub struct DeckTables {
    pub first: RunTables,
    pub second: Option<RunTables>,
}

impl Drop for DeckTables {
    fn drop(self) {
        let DeckTables {
            first: _,
            second: _,
        } = self;
    }
}

impl DeckTables {
    /// The tables of decks with s digits of conductances, at the first period.
    pub fn new(alloc: Global, decks: &Decks, s: u32) -> Result<DeckTables, AllocError>
        requires decks { AreDecks decks.now }
        requires digits { s ≤ 18 }
        ensures { IfOk result (AreDeckTables decks.now s) }
    {
        let first = RunTables::new(alloc, &decks.first, s)?;
        let second = match &decks.second {
            Some(model) => Some(RunTables::new(alloc, model, s)?),
            None => None,
        };
        Ok(DeckTables { first, second })
    }
}
