// A listing by workers in threads.
ghost use Rattle.std.specs.Prelude.{◌≡◌};
ghost use Rattle.command_line.specs.{asked_of};
ghost use Rattle.run_puts.specs.{IsRun, PutsMore};
ghost use Rattle.step_problem.specs.{IsBarrier, Settles};
ghost use Rattle.settle_driver.specs.{IsPlan};
ghost use Rattle.listing_run.specs.{IsTask, IsListing, IsCutListing};
ghost use Rattle.engine.specs.{IsAsked, IsRunOf, Listing, ViewsPut, after_text, decks_text, failed_write, sink_use};

use crate::viewing::put_texts;
use crate::writing::put_text_if;
use certified_pair::QuickPairs;
use command_line::RunOrder;
use listing_run::{Task, put_steps};
use near_settler::NearSettler;
use outside::{Gate, Sink};
use run_puts::Status;
use settle_driver::{ClosureSettler, Plan};
use std::alloc::Global;
use std::thread::Threads;
use step_problem::{Barrier, Bound, Problem, SettleFault};

/// The turns of a worker for each cell in a phase.
pub(crate) const TURNS: u32 = 64;

// Puts the listing of a task, each step settled by this plan; in a quick task only where no guessed pair is a certificate.
fn put_settled<R: Threads + Sync, K: Sink + Send, G: Gate + Sync>(
    rt: &R,
    alloc: Global,
    task: &Task,
    plan: Plan,
    out: &mut K,
    gate: &G,
) -> Status
    requires task { IsTask task.now }
    requires plan { IsPlan plan }
    requires rounds { plan.rounds ≡ task.now.rounds }
    ensures { PutsMore K.leads out.old out.new (IsRun (IsListing task.now) (IsCutListing task.now) result) }
{
    let near = NearSettler::new(rt, plan, gate);
    let near = &near;
    let mut settler = ClosureSettler::new(
        plan.rounds,
        |alloc: Global, p: &Problem, b: &Barrier| -> Result<Vec<Bound>, SettleFault>
            requires { IsBarrier p.now b.now }
            ensures { Settles p.entry.now b.entry.now near.entry.now.plan.rounds result }
        { near.settle(alloc, p, b) },
    );
    if task.quick {
        let mut pairs = QuickPairs::new(settler);
        return put_steps(rt, alloc, task, &mut pairs, out);
    }
    put_steps(rt, alloc, task, &mut settler, out)
}

/// Puts the listing of the task that an order asks for: with `--deck` the text of its decks first, as one piece. Workers pass the
/// gate before each turn. With `--watch` views of the heads are put to the side sink.
pub(crate) fn put_listing<'a, R: Threads + Sync, K: Sink + Send, W: Sink + Send, G: Gate + Sync>(
    rt: &R,
    alloc: Global,
    asked: RunOrder<'a>,
    task: &Task,
    out: &mut K,
    side: &mut W,
    gate: &G,
) -> Status
    requires task { IsTask task.now }
    requires asked { IsAsked (asked_of asked) task.now }
    ensures puts { PutsMore K.leads out.old out.new (IsRunOf ⊥ (failed_write (sink_use W.Sink side.old side.new))
        (after_text asked.entry.deck (decks_text task.now.decks task.now.zones) (Listing task.now)) result) }
    ensures side { ViewsPut task.now asked.entry.watch (sink_use W.Sink side.old side.new) result }
{
    if let Some(status) = put_text_if(alloc, asked.deck, task, out) {
        return status;
    }
    let plan = Plan {
        workers: asked.workers,
        turns_per_cell: TURNS,
        rounds: asked.rounds,
    };
    match asked.watch {
        None => put_settled(rt, alloc, task, plan, out, gate),
        Some(views) => put_texts(rt, alloc, task, plan, views, out, side, gate),
    }
}
