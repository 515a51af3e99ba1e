// A listing by workers in threads, whose heads are viewed while they settle.
ghost use Rattle.std.specs.Prelude.{◌≡◌, ◌⊎◌, None, Some, true, false};
ghost use Rattle.outside.specs.declared.traits.SinkError.TheVariants.{Write};
ghost use Rattle.run_puts.specs.{IsRun, PutsMore};
ghost use Rattle.step_problem.specs.{IsBarrier, Settles};
ghost use Rattle.settle_driver.specs.{IsPlan, AddsPhases, had_memory};
ghost use Rattle.listing_run.specs.{IsTask, IsListingBeside, IsCutListing, ReachesFirst};
ghost use Rattle.engine.specs.{Shows, ViewsPut, failed_write, sink_use};

use listing_run::{Task, put_steps};
use near_settler::NearSettler;
use outside::{Gate, Sink};
use run_puts::Status;
use settle_driver::{Plan, StepViewer, WatchedClosureSettler};
use std::alloc::Global;
use std::thread::Threads;
use step_problem::{Barrier, Bound, Problem, SettleFault};
use view_puts::SinkViewer;

// Puts the listing of a task, each step settled by this plan, while a viewer looks at the heads: `views` views in each
// phase.
fn put_shown<R: Threads + Sync, K: Sink + Send, V: StepViewer + Send, G: Gate + Sync>(
    rt: &R,
    alloc: Global,
    task: &Task,
    plan: Plan,
    views: u32,
    viewer: &mut V,
    out: &mut K,
    gate: &G,
) -> Status
    requires task { IsTask task.now }
    requires plan { IsPlan plan }
    requires rounds { plan.rounds ≡ task.now.rounds }
    requires plain { task.now.quick ≡ false }
    requires goes_on { V.stop viewer.old ≡ None }
    ensures puts { PutsMore K.leads out.old out.new (λ more.
        IsRun (IsListingBeside (V.stop viewer.new ≡ Some Write) task.now) (IsCutListing task.now) result more
        × (result ≡ Status.Ok → ReachesFirst V.begins (Shows V.viewed V.stopped views) V.stop task.now true viewer.old viewer.new)) }
    ensures reaches { (viewer.new ≡ viewer.old)
        ⊎ ReachesFirst V.begins (Shows V.viewed V.stopped views) V.stop task.now false viewer.old viewer.new }
{
    let near = NearSettler::new(rt, plan, gate);
    let near = &near;
    let mut settler = WatchedClosureSettler::new(
        plan.rounds,
        views,
        viewer,
        |alloc: Global, p: &Problem, b: &Barrier, v: &mut V| -> Result<Vec<Bound>, SettleFault>
            requires { IsBarrier p.now b.now }
            ensures settles { Settles p.entry.now b.entry.now near.entry.now.plan.rounds result }
            ensures viewed { AddsPhases V.viewed V.stopped p.entry.now b.entry.now views (had_memory result) v.entry.now v.exit.now }
        { near.settle_watched(alloc, p, b, views, v) },
    );
    put_steps(rt, alloc, task, &mut settler, out)
}

/// Puts the listing of a task, and each view to the side sink, as one piece of text: `views` views in each phase.
pub(crate) fn put_texts<R: Threads + Sync, K: Sink + Send, W: Sink + Send, G: Gate + Sync>(
    rt: &R,
    alloc: Global,
    task: &Task,
    plan: Plan,
    views: u32,
    out: &mut K,
    side: &mut W,
    gate: &G,
) -> Status
    requires task { IsTask task.now }
    requires plan { IsPlan plan }
    requires rounds { plan.rounds ≡ task.now.rounds }
    requires plain { task.now.quick ≡ false }
    ensures puts { PutsMore K.leads out.old out.new
        (IsRun (IsListingBeside (failed_write (sink_use W.Sink side.old side.new)) task.now) (IsCutListing task.now) result) }
    ensures side { ViewsPut task.now (Some views) (sink_use W.Sink side.old side.new) result }
{
    let mut viewer = SinkViewer::new(alloc, side, &task.decks.first.grid);
    put_shown(rt, alloc, task, plan, views, &mut viewer, out, gate)
}
