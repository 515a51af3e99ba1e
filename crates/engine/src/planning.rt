// What a plan's wells do to a model, or to all models between two decks of the folder.
ghost use Rattle.std.specs.Prelude.{◌≡◌, IfOk, IfSome};
ghost use Rattle.outside.specs.{folder_name, FileSet, IsReading, ReadsOn};
ghost use Rattle.command_line.specs.{Plan as PlanOf, plan_asked, text_if};
ghost use Rattle.deck_problems.specs.{AreDecks};
ghost use Rattle.run_puts.specs.{IsRun, PutsMore};
ghost use Rattle.settle_driver.specs.{IsPlan};
ghost use Rattle.step_problem.specs.{IsBarrier, Settles};
ghost use Rattle.zone_pairs.specs.{AreZones};
ghost use Rattle.plan_chain.specs.{IsPlanTask};
ghost use Rattle.plan_run.specs.{IsCutPlanListing, IsPlanListing, IsPlannedBy};
ghost use Rattle.engine.specs.{ArePlanParts, IsPlanRead, MayRead, ServesAlone, folder_use, planned_task, parts_read, wells_read};

use crate::ending::end_reading;
use crate::listing::TURNS;
use crate::plan_parts::PlanParts;
use crate::reading::{read_file, read_zones_of};
use crate::two_decks::read_decks;
use certified_pair::QuickPairs;
use command_line::PlanOrder;
use deck_problems::Decks;
use model_types::Limits;
use near_settler::NearSettler;
use outside::{Folder, Gate, InputFault, Sink};
use plan_chain::PlanTask;
use plan_histories::laws::wells_keep_apart;
use plan_run::{PlannedDecks, put_plan_steps, read_planned};
use run_puts::Status;
use settle_driver::{ClosureSettler, Plan};
use std::alloc::Global;
use std::thread::Threads;
use step_problem::{Barrier, Bound, Problem, SettleFault};

// The plan of the wells that a file of the folder gives, and decks with them.
fn read_wells<F: Folder>(
    alloc: Global,
    folder: &mut F,
    limits: Limits,
    wells: &str,
    decks: &Decks,
) -> Result<PlannedDecks, InputFault>
    requires decks { AreDecks decks.now }
    requires may { F.may folder.old (folder_name wells.now) }
    ensures folder { ReadsOn F.Folder folder.old folder.new result }
    ensures reads { (files : FileSet) → F.agrees folder.new files →
        IsReading (λ w. w) (wells_read files limits wells.now decks.now) result }
    ensures planned { IfOk result (IsPlannedBy limits decks.now) }
{
    let bytes = read_file(alloc, folder, wells)?;
    let planned = read_planned(alloc, limits, wells, bytes.as_slice(), decks)?;
    Ok(planned)
}

// The wells of a plan for decks, and then the zones of their cells.
fn read_parts<F: Folder>(
    alloc: Global,
    folder: &mut F,
    decks: &Decks,
    asked: PlanOrder,
) -> Result<PlanParts, InputFault>
    requires decks { AreDecks decks.now }
    requires may { F.may folder.old (folder_name asked.wells.now) }
    requires zones { IfSome (plan_asked asked).zones (λ zones. F.may folder.old (folder_name zones)) }
    ensures folder { ReadsOn F.Folder folder.old folder.new result }
    ensures reads { (files : FileSet) → F.agrees folder.new files →
        IsReading (λ p. p) (parts_read files (plan_asked asked.entry) decks.now) result }
    ensures parts { IfOk result (ArePlanParts asked.entry.limits decks.now) }
{
    let wells = read_wells(alloc, folder, asked.limits, asked.wells, decks)?;
    match read_zones_of(alloc, &decks.first, asked.zones, folder) {
        Ok(zones) => Ok(PlanParts { wells, zones }),
        Err(fault) => {
            // one call, so that the proof has no part for each of its fields
            drop(wells);
            Err(fault)
        }
    }
}

// What a run with a plan lists.
fn task_of(asked: PlanOrder, decks: Decks, parts: PlanParts) -> PlanTask
    ensures { result ≡ planned_task (plan_asked asked.entry) decks parts }
{
    PlanTask {
        limits: asked.limits,
        base: decks,
        planned: parts.wells.decks,
        plan: parts.wells.plan,
        digits: asked.digits,
        zones: parts.zones,
        rounds: asked.rounds,
        quick: asked.quick,
    }
}

/// Reads a deck of the folder, or two, the wells of a plan, and the zones of the cells.
pub(crate) fn read_plan_task<'a, F: Folder>(
    alloc: Global,
    folder: &mut F,
    asked: PlanOrder<'a>,
) -> Result<PlanTask, InputFault>
    requires may { MayRead (F.may folder.old) (plan_asked asked).name (text_if asked.to) (plan_asked asked).zones }
    requires wells { F.may folder.old (folder_name asked.wells.now) }
    ensures folder { ReadsOn F.Folder folder.old folder.new result }
    ensures reads { (files : FileSet) → F.agrees folder.new files → IsPlanRead (plan_asked asked.entry) (text_if asked.entry.to) files result }
    ensures task { IfOk result IsPlanTask }
    ensures rounds { IfOk result (λ k. k.rounds ≡ asked.entry.rounds) }
    ensures quick { IfOk result (λ k. k.quick ≡ asked.entry.quick) }
{
    wells_keep_apart();
    let decks = read_decks(alloc, asked.limits, folder, asked.name, asked.to)?;
    match read_parts(alloc, folder, &decks, asked) {
        Ok(parts) => {
            folder.some_agree();
            Ok(task_of(asked, decks, parts))
        }
        Err(fault) => {
            // one call, so that the proof has no part for each of their fields
            drop(decks);
            Err(fault)
        }
    }
}

// Puts the listing of a task, each pair settled by this plan of work; in a quick task only where no guessed pair is a certificate.
fn put_plan<R: Threads + Sync, K: Sink + Send, G: Gate + Sync>(
    rt: &R,
    alloc: Global,
    task: &PlanTask,
    plan: Plan,
    out: &mut K,
    gate: &G,
) -> Status
    requires task { IsPlanTask task.now }
    requires plan { IsPlan plan }
    requires rounds { plan.rounds ≡ task.now.rounds }
    ensures { PutsMore K.leads out.old out.new (IsRun (IsPlanListing task.now) (IsCutPlanListing task.now) result) }
{
    let near = NearSettler::new(rt, plan, gate);
    let near = &near;
    let mut settler = ClosureSettler::new(
        plan.rounds,
        |alloc: Global, p: &Problem, b: &Barrier| -> Result<Vec<Bound>, SettleFault>
            requires { IsBarrier p.now b.now }
            ensures { Settles p.entry.now b.entry.now near.entry.now.plan.rounds result }
        { near.settle(alloc, p, b) },
    );
    if task.quick {
        let mut pairs = QuickPairs::new(settler);
        return put_plan_steps(rt, alloc, task, &mut pairs, out);
    }
    put_plan_steps(rt, alloc, task, &mut settler, out)
}

/// Reads a deck of the folder, or two, the wells of a plan, and the zones of the cells if the words name a zone file; and puts
/// what these wells do, step by step. Workers pass the gate before each turn.
pub(crate) fn run_plan<'a, R: Threads + Sync, F: Folder, K: Sink + Send, G: Gate + Sync>(
    rt: &R,
    alloc: Global,
    asked: PlanOrder<'a>,
    folder: &mut F,
    out: &mut K,
    gate: &G,
) -> Status
    requires may { MayRead (F.may folder.old) (plan_asked asked).name (text_if asked.to) (plan_asked asked).zones }
    requires wells { F.may folder.old (folder_name asked.wells.now) }
    ensures since { (files : FileSet) → F.agrees folder.new files → F.agrees folder.old files }
    ensures serves { PutsMore K.leads out.old out.new
        (ServesAlone (PlanOf (plan_asked asked.entry) (text_if asked.entry.to)) (folder_use F.Folder folder.old folder.new) result) }
{
    match read_plan_task(alloc, folder, asked) {
        Ok(task) => {
            let plan = Plan {
                workers: asked.workers,
                turns_per_cell: TURNS,
                rounds: asked.rounds,
            };
            let status = put_plan(rt, alloc, &task, plan, out, gate);
            // one call, so that the proof has no part for each of its fields
            drop(task);
            status
        }
        Err(fault) => end_reading(alloc, fault, out),
    }
}
