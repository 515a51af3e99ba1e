// The check of a listing of what a plan's wells do, of the folder.
ghost use Rattle.std.specs.Prelude.{◌≡◌, IfOk, true};
ghost use Rattle.outside.specs.{folder_name, FileSet, IsReading, ReadsOn};
ghost use Rattle.zone_pairs.specs.{pairs_in};
ghost use Rattle.command_line.specs.{CheckPlan, check_of, text_if};
ghost use Rattle.run_puts.specs.{IsRun, NeverCut, PutsMore};
ghost use Rattle.plan_chain.specs.{IsPlanTask};
ghost use Rattle.plan_listing.specs.{AreListedPlan};
ghost use Rattle.engine.specs.{Answers, IsPlanCheck, MayRead, ServesAlone, folder_use, plan_steps_read, to_plan_check};

use crate::ending::end_reading;
use crate::plan_verdict::put_plan_verdict;
use crate::planning::read_plan_task;
use crate::reading::read_file;
use command_line::{PlanCheckOrder, PlanOrder};
use listing_run::zone_slice;
use outside::{Folder, InputFault, Sink};
use plan_chain::PlanTask;
use plan_check::check_plan_listing;
use plan_listing::{PlanListing, read_plan_listing};
use run_puts::{Status, put_memory};
use std::alloc::Global;

// The listing of a task in this file.
fn read_plan_steps<F: Folder>(
    alloc: Global,
    folder: &mut F,
    between: bool,
    file: &str,
    task: &PlanTask,
) -> Result<PlanListing, InputFault>
    requires task { IsPlanTask task.now }
    requires may { F.may folder.old (folder_name file.now) }
    ensures folder { ReadsOn F.Folder folder.old folder.new result }
    ensures reads { (files : FileSet) → F.agrees folder.new files →
        IsReading (λ l. l) (plan_steps_read between files file.entry.now task.now) result }
    ensures listed { IfOk result (AreListedPlan task.now.base.first (pairs_in task.now.base.first task.now.zones)) }
{
    let bytes = read_file(alloc, folder, file)?;
    let listing = read_plan_listing(
        alloc,
        between,
        &task.base.first,
        file,
        bytes.as_slice(),
        task.digits,
        zone_slice(&task.zones),
    )?;
    Ok(listing)
}

// Checks a listing of a task, and puts the line of its verdict.
fn put_plan_check<K: Sink>(
    alloc: Global,
    task: &PlanTask,
    listing: &PlanListing,
    out: &mut K,
) -> Status
    requires task { IsPlanTask task.now }
    requires quick { task.now.quick ≡ true }
    requires listing { AreListedPlan task.now.base.first (pairs_in task.now.base.first task.now.zones) listing.now }
    ensures { PutsMore K.leads out.old out.new (IsRun (IsPlanCheck task.now listing.now) NeverCut result) }
{
    match check_plan_listing(alloc, task, listing) {
        Ok(verdict) => put_plan_verdict(alloc, &task.base.first.grid, verdict, out),
        Err(_) => put_memory(out),
    }
}

// Reads a listing of a task, and puts the line of its verdict.
fn check_task<F: Folder, K: Sink>(
    alloc: Global,
    between: bool,
    file: &str,
    task: &PlanTask,
    folder: &mut F,
    out: &mut K,
) -> Status
    requires task { IsPlanTask task.now }
    requires quick { task.now.quick ≡ true }
    requires may { F.may folder.old (folder_name file.now) }
    ensures since { (files : FileSet) → F.agrees folder.new files → F.agrees folder.old files }
    ensures answers { PutsMore K.leads out.old out.new (λ more. (files : FileSet) → F.agrees folder.new files →
        Answers (to_plan_check between files file.entry.now task.now) (F.faults folder.old) (F.faults folder.new) result more) }
{
    match read_plan_steps(alloc, folder, between, file, task) {
        Ok(listing) => {
            let status = put_plan_check(alloc, task, &listing, out);
            // one call, so that the proof has no part for each of its fields
            drop(listing);
            status
        }
        Err(fault) => end_reading(alloc, fault, out),
    }
}

/// Reads a deck of the folder, or two, the wells of a plan, the zones of the cells if the words name a zone file, and a listing of what these wells do;
/// and puts the line of its verdict.
pub(crate) fn check_plan<'a, F: Folder, K: Sink>(
    alloc: Global,
    asked: PlanCheckOrder<'a>,
    folder: &mut F,
    out: &mut K,
) -> Status
    requires may { MayRead (F.may folder.old) (check_of asked.check).name (text_if asked.check.to) (check_of asked.check).zones }
    requires wells { F.may folder.old (folder_name asked.wells.now) }
    requires listing { F.may folder.old (folder_name asked.check.listing.now) }
    ensures since { (files : FileSet) → F.agrees folder.new files → F.agrees folder.old files }
    ensures serves { PutsMore K.leads out.old out.new
        (ServesAlone (CheckPlan (check_of asked.entry.check) asked.entry.wells.now (text_if asked.entry.check.to))
        (folder_use F.Folder folder.old folder.new) result) }
{
    let check = asked.check;
    // Any certificates hold, as in a quick run; workers and rounds have no effect.
    let plan = PlanOrder {
        limits: check.limits,
        name: check.name,
        to: check.to,
        wells: asked.wells,
        digits: check.digits,
        workers: 1,
        rounds: 1,
        zones: check.zones,
        quick: true,
    };
    match read_plan_task(alloc, folder, plan) {
        Ok(task) => {
            let between = check.to.is_some();
            let status = check_task(alloc, between, check.listing, &task, folder, out);
            // one call, so that the proof has no part for each of its fields
            drop(task);
            status
        }
        Err(fault) => end_reading(alloc, fault, out),
    }
}
