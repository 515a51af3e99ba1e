// A model that is made from a seed, and the summary of its listing.
ghost use Rattle.std.specs.Prelude.{false, ◌≡◌, ℕ, Ok, IfOk};
ghost use Rattle.run_puts.specs.{PutsMore};
ghost use Rattle.step_problem.specs.{IsBarrier, Settles};
ghost use Rattle.model_types.specs.{IsModel};
ghost use Rattle.listing_run.specs.{IsTask};
ghost use Rattle.listing_summary.specs.{IsSummarized};
ghost use Rattle.engine.specs.{made_model, summed_text, Answers, Making, made_fault};

use crate::ending::end_reading;
use crate::listing::TURNS;
use crate::reading::read_named;
use command_line::MakeOrder;
use deck_problems::Decks;
use listing_run::{ListingEnd, Task};
use listing_summary::{Summary, summarize, write_summary};
use model_maker::{NAME, make};
use model_types::{FlowModel, Limits};
use near_settler::NearSettler;
use outside::{Gate, InputFault, Sink};
use run_puts::{Status, put_line, put_memory};
use settle_driver::{ClosureSettler, Plan};
use std::alloc::{AllocError, Global};
use std::thread::Threads;
use step_problem::{Barrier, Bound, Problem, SettleFault};

// The listing of a made model, with the digits, the workers and the rounds of a run without options.
const MADE_DIGITS: u32 = 12;

const MADE_PLAN: Plan = Plan {
    workers: 4,
    turns_per_cell: TURNS,
    rounds: 1_000_000,
};

// The summary of a task's listing, each step settled by workers in threads.
fn summarize_by_workers<R: Threads + Sync, G: Gate + Sync>(
    rt: &R,
    alloc: Global,
    task: &Task,
    gate: &G,
) -> Result<(Summary, ListingEnd), AllocError>
    requires task { IsTask task.now }
    requires rounds { task.now.rounds ≡ 1000000 }
    requires plain { task.now.quick ≡ false }
    ensures { IfOk result (λ (summary, end). IsSummarized task.now summary end) }
{
    let near = NearSettler::new(rt, MADE_PLAN, gate);
    let near = &near;
    let mut settler = ClosureSettler::new(
        MADE_PLAN.rounds,
        |alloc: Global, p: &Problem, b: &Barrier| -> Result<Vec<Bound>, SettleFault>
            requires { IsBarrier p.now b.now }
            ensures { Settles p.entry.now b.entry.now near.entry.now.plan.rounds result }
        { near.settle(alloc, p, b) },
    );
    summarize(alloc, task, &mut settler)
}

// The last line of a made model's run: the summary of a whole listing, or the last line of any other one.
fn summary_line(
    alloc: Global,
    seed: u32,
    size: u32,
    task: &Task,
    summary: &Summary,
    end: ListingEnd,
) -> Result<Vec<u8>, AllocError>
    requires { IsTask task.now }
    ensures { IfOk result (λ line. line.items ≡ summed_text seed size task.now.decks.first.grid summary.now end) }
{
    match end {
        ListingEnd::Whole => write_summary(alloc, seed, size, summary),
        ListingEnd::NoBound(_, _) | ListingEnd::Unfinished(_) => end.line(
            alloc,
            &task.decks.first.grid,
        ),
    }
}

// A fault of reading made files. They are in memory, so one that is no refusal is lack of memory.
fn made_fault(fault: InputFault) -> InputFault
    ensures { result ≡ made_fault fault }
{
    match fault {
        InputFault::ReadFault => InputFault::Memory,
        fault => fault,
    }
}

// Puts the summary of the listing of a model, or the last line of a listing that isn't whole.
fn put_summary<R: Threads + Sync, K: Sink, G: Gate + Sync>(
    rt: &R,
    alloc: Global,
    asked: MakeOrder,
    model: FlowModel,
    out: &mut K,
    gate: &G,
) -> Status
    requires { IsModel model }
    ensures { PutsMore K.leads out.old out.new (λ more. made_model asked.seed asked.size ≡ Ok model → (n : ℕ) →
        Answers (Making asked.seed asked.size (made_model asked.seed asked.size)) n n result more) }
{
    let task = Task {
        limits: Limits::Plain,
        decks: Decks {
            first: model,
            second: None,
        },
        digits: MADE_DIGITS,
        zones: None,
        rounds: MADE_PLAN.rounds,
        quick: false,
    };
    let Ok((summary, end)) = summarize_by_workers(rt, alloc, &task, gate) else {
        drop(task);
        return put_memory(out);
    };
    let line = summary_line(alloc, asked.seed, asked.size, &task, &summary, end);
    // one call, so that the proof has no part for each of its fields
    drop(task);
    put_line(out, line, end.status())
}

/// Makes the model of a seed and a size, reads its files like those of a folder, and puts the summary of its
/// listing, or the last line of a listing that isn't whole.
pub(crate) fn put_made<R: Threads + Sync, K: Sink, G: Gate + Sync>(
    rt: &R,
    alloc: Global,
    asked: MakeOrder,
    out: &mut K,
    gate: &G,
) -> Status
    ensures { PutsMore K.leads out.old out.new (λ more. (n : ℕ) →
        Answers (Making asked.seed asked.size (made_model asked.seed asked.size)) n n result more) }
{
    let Ok(mut folder) = make(alloc, asked.seed, asked.size) else {
        return put_memory(out);
    };
    match read_named(alloc, Limits::Plain, &mut folder, NAME) {
        Ok(model) => put_summary(rt, alloc, asked, model, out, gate),
        Err(fault) => end_reading(alloc, made_fault(fault), out),
    }
}
