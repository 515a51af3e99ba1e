// A walk over the steps of a plan's listing.
ghost use Rattle.std.specs.Prelude.{◌≡◌, ◌+◌, ◌<◌, ◌∷◌, [], drop, get_or, length, IfOk, IfErr, IfSome, MatchOption};
ghost use Rattle.plan_chain.specs.Plans.{ArePlanHeads, IsPlanTask, heads_in, plan_pairs};
ghost use Rattle.plan_chain.specs.Walks.{AreStartsOf, IsAtFirst, IsNext, IsPlanWalk, Stays, StopsAt, stop_of, times_left};
ghost use Rattle.plan_chain.specs.declared.walk.PlanStop.TheVariants.{Memory as OutOfMemory};

use crate::differences::no_differences;
use crate::step::{
    PlanFault, PlanHeads, PlanPart, PlanSolved, PlanTask, cell_count, next_plan_step,
};
use deck_problems::{DeckTables, start_heads_for};
use model_types::{Listed, TimeStep, times};
use std::alloc::{AllocError, Global};
use step_chain::{Solved, StepFault};
use step_problem::{Bound, NoBound, Settler};

/// How a plan's listing ends: with all steps, at the first step of which a part has no bounds, or at the first of which the rounds don't settle a part.
#[derive(Clone, Copy)]
pub enum PlanEnd {
    Whole,
    NoBound(TimeStep, PlanPart, NoBound),
    Unfinished(TimeStep, PlanPart),
}

/// Why a walk stops: the end of the listing, or lack of memory.
#[derive(Clone, Copy)]
pub enum PlanStop {
    End(PlanEnd),
    Memory,
}

impl From<AllocError> for PlanStop {
    ghost from_gives = { λ _ e. e ≡ OutOfMemory };

    fn from(_e: AllocError) -> PlanStop {
        PlanStop::Memory
    }
}

// The stop at the step of a time, from the fault of solving it.
fn stop_at(at: TimeStep, fault: PlanFault) -> PlanStop
    ensures { result ≡ stop_of at fault }
{
    let part = fault.part;
    match fault.fault {
        StepFault::NoBound(refusal) => PlanStop::End(PlanEnd::NoBound(at, part, refusal)),
        StepFault::Unfinished(_) => PlanStop::End(PlanEnd::Unfinished(at, part)),
        StepFault::Memory => PlanStop::Memory,
    }
}

// The heads of a solved step; the rest is dropped by calls.
fn heads_of(solved: Solved) -> Listed<Bound>
    ensures { result ≡ solved.heads }
{
    drop(solved.problem);
    drop(solved.bounds);
    solved.heads
}

/// STRT of both plans, and differences of 0.
pub fn start_heads(alloc: Global, task: &PlanTask) -> Result<PlanHeads, AllocError>
    requires { IsPlanTask task.now }
    ensures start { IfOk result (AreStartsOf task.now) }
    ensures fit { IfOk result (ArePlanHeads task.now) }
{
    let base = start_heads_for(alloc, &task.base)?;
    let planned = start_heads_for(alloc, &task.planned)?;
    let differences = Listed::new(no_differences(alloc, cell_count(task))?);
    Ok(PlanHeads {
        base,
        planned,
        differences,
    })
}

/// A walk over the steps of a task: the tables that the steps share, the times, the number of steps that are done, and the heads and the differences of
/// all cells after them: STRT and 0 before the first step.
#[derive(Drop)]
pub struct PlanWalk {
    base_tables: DeckTables,
    planned_tables: DeckTables,
    times: Listed<TimeStep>,
    done: usize,
    heads: PlanHeads,
}

impl PlanWalk {
    /// A walk before the first step of a task.
    pub fn new(alloc: Global, task: &PlanTask) -> Result<PlanWalk, AllocError>
        requires { IsPlanTask task.now }
        ensures walk { IfOk result (IsPlanWalk task.now) }
        ensures first { IfOk result (IsAtFirst task.now) }
    {
        let times = Listed::new(times(alloc, &task.base.first)?);
        let heads = start_heads(alloc, task)?;
        let base_tables = DeckTables::new(alloc, &task.base, task.digits)?;
        let planned_tables = DeckTables::new(alloc, &task.planned, task.digits)?;
        Ok(PlanWalk {
            base_tables,
            planned_tables,
            times,
            done: 0,
            heads,
        })
    }

    /// The time of the next step. There is none after the last one.
    pub fn time(&self) -> Option<TimeStep>
        ensures left { MatchOption result (times_left self.now ≡ [])
            (λ at. times_left self.now ≡ at ∷ drop (self.now.done + 1) self.now.times) }
        ensures place { IfSome result (λ at. (self.now.done < length self.now.times) × (get_or self.now.times self.now.done at ≡ at)) }
    {
        self.times.as_slice().get(self.done).copied()
    }

    /// The heads and the differences of all cells after the last step that was solved.
    pub fn heads(&self) -> &PlanHeads
        ensures { result.now ≡ self.now.heads }
    {
        &self.heads
    }

    /// Solves the next step. The walk stays where it is, so that what follows from the step can be made before its heads move into the walk.
    pub fn solve<S: Settler>(
        &mut self,
        alloc: Global,
        task: &PlanTask,
        settler: &mut S,
    ) -> Result<PlanSolved, PlanStop>
        requires ready { S.ready settler.old }
        requires rounds { S.rounds settler.old ≡ task.now.rounds }
        requires pairs { S.pairs ≡ plan_pairs task.now }
        requires task { IsPlanTask task.now }
        requires walk { IsPlanWalk task.now self.old }
        ensures ready { S.ready settler.new }
        ensures rounds { S.rounds settler.new ≡ S.rounds settler.old }
        ensures walk { IsPlanWalk task.now self.new }
        ensures stays { Stays self.old self.new }
        ensures next { IfOk result (IsNext task.now self.old) }
        ensures stop { IfErr result (StopsAt task.now self.old.heads (times_left self.old)) }
    {
        let Some(at) = self.time() else {
            return Err(PlanStop::End(PlanEnd::Whole));
        };
        match next_plan_step(
            alloc,
            task,
            &mut self.base_tables,
            &mut self.planned_tables,
            at,
            &self.heads,
            settler,
        ) {
            Ok(solved) => Ok(solved),
            Err(fault) => Err(stop_at(at, fault)),
        }
    }

    /// Goes on past a step that was solved: its heads and differences move into the walk.
    pub fn advance(&mut self, solved: PlanSolved)
        requires { self.old.done < 100000 }
        ensures { self.new ≡ record self.old { done = self.old.done + 1; heads = heads_in solved } }
    {
        self.heads = PlanHeads {
            base: heads_of(solved.base),
            planned: heads_of(solved.planned),
            differences: heads_of(solved.differences),
        };
        self.done += 1;
    }
}
