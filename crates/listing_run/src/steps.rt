// A walk over the steps of a task.
ghost use Rattle.std.specs.Prelude.{◌≡◌, ◌+◌, ◌<◌, ◌∷◌, [], drop, get_or, length, ℕ, Contains, IfOk, IfErr, IfSome, MatchOption, MatchResult, true};
ghost use Rattle.cell_relax.specs.{AreWords};
ghost use Rattle.model_types.specs.{times};
ghost use Rattle.problem_builder.specs.{AreGridHeads, IsActive, IsCellNamed};
ghost use Rattle.deck_problems.specs.{EachChoice};
ghost use Rattle.step_chain.specs.{IsStepBy, FailsBy, LeadsBy, LeadsOrRests, EnclosesMoves};
ghost use Rattle.listing_run.specs.{IsAtFirst, IsNext, IsNextText, IsTask, IsWalk, StopsAt, times_left, with_heads, RestsOrSettlesFirst, pairs_of, AreTablesOf};

use crate::solving::{StepFlows, Stop, heads_of, step_flows, stop_at};
use crate::text::ListingEnd;
use deck_problems::{DeckTables, Decks, start_heads_for};
use listing_io::write_step;
use model_types::{Limits, Listed, TimeStep, times};
use std::alloc::{AllocError, Global};
use step_chain::{Solved, StepFault, last_step, next_step_with};
use step_problem::{Bound, Settler};

/// A walk over the steps of a task: the tables that the steps share, which the first one makes and the last one drops, the
/// times, the number of steps that are done, and the heads of all cells after them, which are STRT before the first step.
#[derive(Drop)]
pub struct Steps {
    tables: Option<DeckTables>,
    times: Listed<TimeStep>,
    done: usize,
    heads: Listed<Bound>,
}

// The tables of a task, which are made where there are none yet.
fn tables_of(
    alloc: Global,
    task: &Task,
    tables: Option<DeckTables>,
) -> Result<DeckTables, AllocError>
    requires task { IsTask task.now }
    requires tables { IfSome tables (AreTablesOf task.now) }
    ensures { IfOk result (AreTablesOf task.now) }
{
    match tables {
        Some(tables) => Ok(tables),
        None => DeckTables::new(alloc, &task.decks, task.digits),
    }
}

// The step at a time. The last one drops the tables before its problem is settled.
fn solve<S: Settler>(
    alloc: Global,
    task: &Task,
    tables: &mut Option<DeckTables>,
    is_last: bool,
    at: TimeStep,
    old: &[Bound],
    settler: &mut S,
) -> Result<Solved, StepFault>
    requires ready { S.ready settler.old }
    requires task { IsTask task.now }
    requires tables { IfSome tables.old (AreTablesOf task.now) }
    requires time { Contains (times task.now.decks.first) at }
    requires old { AreGridHeads task.now.decks.first old.now }
    ensures tables { IfSome tables.new (AreTablesOf task.now) }
    ensures ready { S.ready settler.new }
    ensures rounds { S.rounds settler.new ≡ S.rounds settler.old }
    ensures step { IfOk result (IsStepBy task.now.limits task.now.decks task.now.digits at old.now S.pairs) }
    ensures fault { IfErr result (FailsBy task.now.limits task.now.decks task.now.digits at old.now (S.rounds settler.old)) }
    ensures words { IfOk result (λ x. AreWords x.problem x.bounds) }
    ensures heads { IfOk result (λ x. AreGridHeads task.now.decks.first x.heads) }
    ensures named { IfOk result (λ x. (c : ℕ) → IsCellNamed x.problem c → IsActive task.now.decks.first c) }
    ensures encloses { IfOk result (λ x. EachChoice task.now.decks at
        (λ y. EnclosesMoves task.now.decks.first task.now.digits at y old.now x)) }
    ensures leads { MatchResult result
        (λ x. LeadsBy S.leads task.now.limits task.now.decks at old.now x.problem true settler.old settler.new)
        (λ _. LeadsOrRests S.leads task.now.limits task.now.decks task.now.digits at old.now settler.old settler.new) }
{
    let (limits, decks) = (task.limits, &task.decks);
    let mut own = tables_of(alloc, task, tables.take())?;
    if is_last {
        return last_step(alloc, limits, decks, own, at, old, settler);
    }
    let solved = next_step_with(alloc, limits, decks, &mut own, at, old, settler);
    *tables = Some(own);
    solved
}

impl Steps {
    /// A walk before the first step of a task.
    pub fn new(alloc: Global, task: &Task) -> Result<Steps, AllocError>
        requires { IsTask task.now }
        ensures walk { IfOk result (IsWalk task.now) }
        ensures first { IfOk result (IsAtFirst task.now) }
    {
        let decks = &task.decks;
        let times = Listed::new(times(alloc, &decks.first)?);
        let heads = start_heads_for(alloc, decks)?;
        Ok(Steps {
            tables: None,
            times,
            done: 0,
            heads,
        })
    }

    /// The time of the next step. There is none after the last one.
    pub fn time(&self) -> Option<TimeStep>
        ensures left { MatchOption result (times_left self.now ≡ [])
            (λ at. times_left self.now ≡ at ∷ drop (self.now.done + 1) self.now.times) }
        ensures place { IfSome result (λ at. (self.now.done < length self.now.times) × (get_or self.now.times self.now.done at ≡ at)) }
    {
        self.times.as_slice().get(self.done).copied()
    }

    // Whether no step follows the next one.
    fn is_last(&self) -> bool {
        self.times.as_slice().len().saturating_sub(self.done) <= 1
    }

    /// The heads of all cells after the last step that was solved.
    pub fn heads(&self) -> &[Bound]
        ensures { result.now ≡ self.now.heads }
    {
        self.heads.as_slice()
    }

    /// Solves the next step.
    pub fn next<S: Settler>(
        &mut self,
        alloc: Global,
        task: &Task,
        settler: &mut S,
    ) -> Result<StepFlows, Stop>
        requires ready { S.ready settler.old }
        requires rounds { S.rounds settler.old ≡ task.now.rounds }
        requires pairs { S.pairs ≡ pairs_of task.now }
        requires task { IsTask task.now }
        requires walk { IsWalk task.now self.old }
        ensures ready { S.ready settler.new }
        ensures rounds { S.rounds settler.new ≡ S.rounds settler.old }
        ensures walk { IsWalk task.now self.new }
        ensures next { IfOk result (λ flows. IsNext S.leads task.now self.old self.new settler.old settler.new (with_heads flows self.new.heads)) }
        ensures stop { IfErr result (StopsAt task.now self.old.heads (times_left self.old)) }
        ensures led { IfErr result (λ _. RestsOrSettlesFirst S.leads task.now (times_left self.old) self.old.heads settler.old settler.new) }
    {
        let Some(at) = self.time() else {
            return Err(Stop::End(ListingEnd::Whole));
        };
        let is_last = self.is_last();
        match solve(
            alloc,
            task,
            &mut self.tables,
            is_last,
            at,
            self.heads.as_slice(),
            settler,
        ) {
            Ok(solved) => match step_flows(alloc, task, at, &solved) {
                Ok(flows) => {
                    self.heads = heads_of(solved);
                    self.done += 1;
                    Ok(flows)
                }
                Err(stop) => {
                    drop(solved);
                    Err(stop)
                }
            },
            Err(fault) => Err(stop_at(at, fault)),
        }
    }

    /// Solves the next step, as its text.
    pub fn next_text<S: Settler>(
        &mut self,
        alloc: Global,
        task: &Task,
        settler: &mut S,
    ) -> Result<Vec<u8>, Stop>
        requires ready { S.ready settler.old }
        requires rounds { S.rounds settler.old ≡ task.now.rounds }
        requires pairs { S.pairs ≡ pairs_of task.now }
        requires task { IsTask task.now }
        requires walk { IsWalk task.now self.old }
        ensures ready { S.ready settler.new }
        ensures rounds { S.rounds settler.new ≡ S.rounds settler.old }
        ensures walk { IsWalk task.now self.new }
        ensures next { IfOk result (λ text. IsNextText S.leads task.now self.old self.new settler.old settler.new text.items) }
        ensures stop { IfErr result (StopsAt task.now self.old.heads (times_left self.old)) }
        ensures led { IfErr result (λ _. RestsOrSettlesFirst S.leads task.now (times_left self.old) self.old.heads settler.old settler.new) }
    {
        let flows = self.next(alloc, task, settler)?;
        let text = write_step(
            alloc,
            &task.decks.first,
            task.digits,
            flows.at,
            self.heads.as_slice(),
            &flows.budget,
            flows.zones.as_slice(),
        )?;
        Ok(text)
    }
}

// A task: what is to be listed.

/// What is to be listed, by these limits: the decks, the digits s of conductances, the zone of each cell, if there is a zone file, the
/// number of plain rounds in which each step must settle, and whether a step may have any pair that is a certificate.
#[derive(Drop)]
pub struct Task {
    pub limits: Limits,
    pub decks: Decks,
    pub digits: u32,
    pub zones: Option<Listed<u32>>,
    pub rounds: u32,
    pub quick: bool,
}
