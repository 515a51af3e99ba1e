// The next step of one deck, or of two.
ghost use Rattle.std.specs.Prelude.{◌≡◌, ◌<◌, ◌≤◌, ℕ, Contains, IfOk, IfErr, MatchResult, length, slice_index_or, true};
ghost use Rattle.cell_relax.specs.{AreWords};
ghost use Rattle.model_types.specs.declared.given_heads.Kind.TheVariants.{NoFlow};
ghost use Rattle.model_types.specs.{cell_count, times, HasSize};
ghost use Rattle.problem_builder.specs.{AreGridHeads, Filled, IsActive, IsIndex, IsKind, bound_at, IsCellNamed};
ghost use Rattle.deck_problems.specs.{AreDecks, EachChoice, AreDeckTables, digits_of, AreConstantHeadsFor, EnclosesChoices, HasCellsOf, IsFaultFor};
ghost use Rattle.deck_problems.specs.{IsProblemFor};
ghost use Rattle.step_chain.specs.{IsStepBy, AreHeadsOf, FailsBy, LeadsBy, LeadsOrRests, EnclosesMoves};

use crate::laws::{heads_fit, steps_enclose};
use crate::solved::{Solved, StepFault, barrier_by, settle_by};
use certificate_check::laws::{clamped_pair_encloses, settled_pair_encloses};
use deck_problems::{DeckProblem, DeckTables, Decks, problem_for};
use model_types::{Kind, Limits, Listed, TimeStep};
use problem_builder::start::NO_HEADS;
use std::alloc::Global;
use std::mem;
use step_problem::laws::settled_pair;
use step_problem::{Bound, BoundFault, Settler};

// The step of a problem that was made at a time from the old heads, with s digits: the settler gives its pair.
fn settle_posed<S: Settler>(
    alloc: Global,
    limits: Limits,
    decks: &Decks,
    at: TimeStep,
    old: &[Bound],
    s: u32,
    posed: DeckProblem,
    kinds: &[Kind],
    index: &[u32],
    settler: &mut S,
) -> Result<Solved, StepFault>
    requires ready { S.ready settler.old }
    requires decks { AreDecks decks.now }
    requires time { Contains (times decks.now.first) at }
    requires old { AreGridHeads decks.now.first old.now }
    requires problem { IsProblemFor decks.now s at old.now posed.problem }
    requires constant { AreConstantHeadsFor decks.now at posed.constant_heads }
    requires cells { HasCellsOf decks.now.first at posed.problem }
    requires encloses { EnclosesChoices decks.now s at old.now posed.problem }
    requires kinds { Filled (IsKind decks.now.first at.period) NoFlow (cell_count decks.now.first.grid) kinds.now }
    requires index { Filled (IsIndex decks.now.first at.period) 0 (cell_count decks.now.first.grid) index.now }
    ensures rounds { S.rounds settler.new ≡ S.rounds settler.old }
    ensures ready { S.ready settler.new }
    ensures step { IfOk result (IsStepBy limits decks.now s at old.now S.pairs) }
    ensures fault { IfErr result (FailsBy limits decks.now s at old.now (S.rounds settler.old)) }
    ensures words { IfOk result (λ r. AreWords r.problem r.bounds) }
    ensures heads { IfOk result (λ r. AreGridHeads decks.now.first r.heads) }
    ensures named { IfOk result (λ r. (c : ℕ) → IsCellNamed r.problem c → IsActive decks.now.first c) }
    ensures encloses { IfOk result (λ x. EachChoice decks.now at (λ y. EnclosesMoves decks.now.first s at y old.now x)) }
    ensures leads { MatchResult result
        (λ r. LeadsBy S.leads limits decks.now at old.now r.problem true settler.old settler.new)
        (λ _. LeadsOrRests S.leads limits decks.now s at old.now settler.old settler.new) }
{
    let (_old, _s) = (old, s);
    let barrier = barrier_by(alloc, limits, &posed.problem)?;
    settled_pair();
    settled_pair_encloses();
    clamped_pair_encloses();
    posed.problem.recall_conditions();
    let bounds = Listed::new(settle_by(alloc, limits, &posed.problem, &barrier, settler)?);
    let heads = fill_in(
        decks,
        kinds,
        index,
        at,
        posed.constant_heads,
        bounds.as_slice(),
    );
    steps_enclose();
    heads_fit();
    Ok(Solved {
        problem: posed.problem,
        bounds,
        heads,
    })
}

/// The step at a time, from the heads of all cells before it: its problem is built, and the settler gives its pair. `tables` are those
/// of the run, and move to the step's period. With wide limits a floor or a ceiling out of the range of heads is cut, and a settled pair that
/// is no certificate then is refused.
pub fn next_step_with<S: Settler>(
    alloc: Global,
    limits: Limits,
    decks: &Decks,
    tables: &mut DeckTables,
    at: TimeStep,
    old: &[Bound],
    settler: &mut S,
) -> Result<Solved, StepFault>
    requires ready { S.ready settler.old }
    requires decks { AreDecks decks.now }
    requires time { Contains (times decks.now.first) at }
    requires old { AreGridHeads decks.now.first old.now }
    requires digits { digits_of tables.old.first ≤ 18 }
    requires tables { AreDeckTables decks.now (digits_of tables.old.first) tables.old }
    ensures rounds { S.rounds settler.new ≡ S.rounds settler.old }
    ensures ready { S.ready settler.new }
    ensures tables { AreDeckTables decks.now (digits_of tables.old.first) tables.new }
    // The problem from the old heads, the settler's pair over its barrier, and the heads of all cells.
    ensures step { IfOk result (IsStepBy limits decks.now (digits_of tables.old.first) at old.now S.pairs) }
    ensures fault { IfErr result (FailsBy limits decks.now (digits_of tables.old.first) at old.now (S.rounds settler.old)) }
    // What `budget` and the flows between zones require.
    ensures words { IfOk result (λ r. AreWords r.problem r.bounds) }
    ensures heads { IfOk result (λ r. AreGridHeads decks.now.first r.heads) }
    ensures named { IfOk result (λ r. (c : ℕ) → IsCellNamed r.problem c → IsActive decks.now.first c) }
    // From all exact heads within the old ones, every solution of each choice of the step lies within the new ones.
    ensures encloses { IfOk result (λ x. EachChoice decks.now at (λ y. EnclosesMoves decks.now.first (digits_of tables.old.first) at y old.now x)) }
    // Whatever the settler did, every solution of each choice of the step lies between the settled pair of the problem that it was given.
    ensures leads { MatchResult result
        (λ r. LeadsBy S.leads limits decks.now at old.now r.problem true settler.old settler.new)
        (λ _. LeadsOrRests S.leads limits decks.now (digits_of tables.old.first) at old.now settler.old settler.new) }
{
    let s = tables.first.tables.digits;
    let posed = problem_for(alloc, decks, tables, at, old)?;
    let kinds = tables.first.period.kinds.as_slice();
    let index = tables.first.period.index.as_slice();
    settle_posed(
        alloc, limits, decks, at, old, s, posed, kinds, index, settler,
    )
}

// A step's problem, and the kinds and the indices of cells at its time.
#[derive(Drop)]
struct PosedStep {
    posed: DeckProblem,
    kinds: Listed<Kind>,
    index: Listed<u32>,
}

// The kinds and the indices of cells in the period of tables; all else of these is dropped.
fn into_kinds(alloc: Global, tables: DeckTables) -> (Listed<Kind>, Listed<u32>)
    ensures kinds { result.0 ≡ tables.first.period.kinds }
    ensures index { result.1 ≡ tables.first.period.index }
{
    let mut tables = tables;
    let kinds = mem::replace(&mut tables.first.period.kinds, Listed::new(Vec::new(alloc)));
    let index = mem::replace(&mut tables.first.period.index, Listed::new(Vec::new(alloc)));
    drop(tables);
    (kinds, index)
}

// The problem of a step from tables that no later step needs.
fn pose_last(
    alloc: Global,
    decks: &Decks,
    tables: DeckTables,
    at: TimeStep,
    old: &[Bound],
) -> Result<PosedStep, BoundFault>
    requires decks { AreDecks decks.now }
    requires time { Contains (times decks.now.first) at }
    requires old { AreGridHeads decks.now.first old.now }
    requires digits { digits_of tables.first ≤ 18 }
    requires tables { AreDeckTables decks.now (digits_of tables.first) tables }
    ensures problem { IfOk result (λ x. IsProblemFor decks.now (digits_of tables.first) at old.now x.posed.problem) }
    ensures constant { IfOk result (λ x. AreConstantHeadsFor decks.now at x.posed.constant_heads) }
    ensures fault { IfErr result (IsFaultFor decks.now (digits_of tables.first) at old.now) }
    ensures cells { IfOk result (λ x. HasCellsOf decks.now.first at x.posed.problem) }
    ensures encloses { IfOk result (λ x. EnclosesChoices decks.now (digits_of tables.first) at old.now x.posed.problem) }
    ensures kinds { IfOk result (λ x. Filled (IsKind decks.now.first at.period) NoFlow (cell_count decks.now.first.grid) x.kinds) }
    ensures index { IfOk result (λ x. Filled (IsIndex decks.now.first at.period) 0 (cell_count decks.now.first.grid) x.index) }
{
    let mut tables = tables;
    let posed = problem_for(alloc, decks, &mut tables, at, old);
    let (kinds, index) = into_kinds(alloc, tables);
    Ok(PosedStep {
        posed: posed?,
        kinds,
        index,
    })
}

/// The same as `next_step_with`, by tables that no later step needs: they are dropped before the problem is settled.
pub fn last_step<S: Settler>(
    alloc: Global,
    limits: Limits,
    decks: &Decks,
    tables: DeckTables,
    at: TimeStep,
    old: &[Bound],
    settler: &mut S,
) -> Result<Solved, StepFault>
    requires ready { S.ready settler.old }
    requires decks { AreDecks decks.now }
    requires time { Contains (times decks.now.first) at }
    requires old { AreGridHeads decks.now.first old.now }
    requires digits { digits_of tables.first ≤ 18 }
    requires tables { AreDeckTables decks.now (digits_of tables.first) tables }
    ensures rounds { S.rounds settler.new ≡ S.rounds settler.old }
    ensures ready { S.ready settler.new }
    ensures step { IfOk result (IsStepBy limits decks.now (digits_of tables.first) at old.now S.pairs) }
    ensures fault { IfErr result (FailsBy limits decks.now (digits_of tables.first) at old.now (S.rounds settler.old)) }
    ensures words { IfOk result (λ r. AreWords r.problem r.bounds) }
    ensures heads { IfOk result (λ r. AreGridHeads decks.now.first r.heads) }
    ensures named { IfOk result (λ r. (c : ℕ) → IsCellNamed r.problem c → IsActive decks.now.first c) }
    ensures encloses { IfOk result (λ x. EachChoice decks.now at (λ y. EnclosesMoves decks.now.first (digits_of tables.first) at y old.now x)) }
    ensures leads { MatchResult result
        (λ r. LeadsBy S.leads limits decks.now at old.now r.problem true settler.old settler.new)
        (λ _. LeadsOrRests S.leads limits decks.now (digits_of tables.first) at old.now settler.old settler.new) }
{
    let s = tables.first.tables.digits;
    let PosedStep {
        posed,
        kinds,
        index,
    } = pose_last(alloc, decks, tables, at, old)?;
    settle_posed(
        alloc,
        limits,
        decks,
        at,
        old,
        s,
        posed,
        kinds.as_slice(),
        index.as_slice(),
        settler,
    )
}

/// The step at a time with s digits of conductances, from the heads of all cells before it. It makes all tables
/// anew; `next_step_with` takes tables that are kept for a run.
pub fn next_step<S: Settler>(
    alloc: Global,
    limits: Limits,
    decks: &Decks,
    at: TimeStep,
    old: &[Bound],
    s: u32,
    settler: &mut S,
) -> Result<Solved, StepFault>
    requires ready { S.ready settler.old }
    requires decks { AreDecks decks.now }
    requires time { Contains (times decks.now.first) at }
    requires old { AreGridHeads decks.now.first old.now }
    requires digits { s ≤ 18 }
    ensures rounds { S.rounds settler.new ≡ S.rounds settler.old }
    ensures ready { S.ready settler.new }
    ensures step { IfOk result (IsStepBy limits decks.now s at old.now S.pairs) }
    ensures fault { IfErr result (FailsBy limits decks.now s at old.now (S.rounds settler.old)) }
    ensures words { IfOk result (λ r. AreWords r.problem r.bounds) }
    ensures heads { IfOk result (λ r. AreGridHeads decks.now.first r.heads) }
    ensures named { IfOk result (λ r. (c : ℕ) → IsCellNamed r.problem c → IsActive decks.now.first c) }
    ensures encloses { IfOk result (λ x. EachChoice decks.now at (λ y. EnclosesMoves decks.now.first s at y old.now x)) }
    ensures leads { MatchResult result
        (λ r. LeadsBy S.leads limits decks.now at old.now r.problem true settler.old settler.new)
        (λ _. LeadsOrRests S.leads limits decks.now s at old.now settler.old settler.new) }
{
    let tables = DeckTables::new(alloc, decks, s)?;
    last_step(alloc, limits, decks, tables, at, old, settler)
}

// The heads of all cells of the grid.

// The bound of an index, zeros past the end.
fn bound_at(bounds: &[Bound], index: u32) -> Bound
    ensures { result ≡ bound_at bounds.now index }
{
    match bounds.get(index as usize) {
        Some(bound) => *bound,
        None => NO_HEADS,
    }
}

fn kind_at(kinds: &[Kind], cell: u32) -> Kind
    requires { cell < length kinds.now }
    ensures { result ≡ slice_index_or kinds.now cell NoFlow }
{
    kinds[cell as usize]
}

fn index_at(index: &[u32], cell: u32) -> u32
    requires { cell < length index.now }
    ensures { result ≡ slice_index_or index.now cell 0 }
{
    index[cell as usize]
}

/// The heads of all cells, from the kinds and the indices of cells, the constant heads of a time and the bounds of its variable cells. It takes no memory.
pub fn fill_in(
    decks: &Decks,
    kinds: &[Kind],
    index: &[u32],
    at: TimeStep,
    constant_heads: Listed<Bound>,
    bounds: &[Bound],
) -> Listed<Bound>
    requires size { HasSize decks.now.first.grid }
    requires kinds { Filled (IsKind decks.now.first at.period) NoFlow (cell_count decks.now.first.grid) kinds.now }
    requires index { Filled (IsIndex decks.now.first at.period) 0 (cell_count decks.now.first.grid) index.now }
    requires constant { AreConstantHeadsFor decks.now at constant_heads }
    ensures { AreHeadsOf decks.now at bounds.now result }
{
    let _at = at;
    let mut heads = constant_heads;
    let count = decks.first.grid.cell_count();
    for cell in 0..count {
        if let Kind::Variable = kind_at(kinds, cell) {
            heads.set(cell as usize, bound_at(bounds, index_at(index, cell)));
        }
    }
    heads
}
