// The settler of a run, by itself or while a viewer watches.
ghost use Rattle.std.specs.Prelude.{◌≡◌, IfSome, true};
ghost use Rattle.step_problem.specs.{AreOnTheWay, IsBarrier, Settles};
ghost use Rattle.settle_driver.specs.{IsPlan, AddsPhases, had_memory};

use crate::first::{first_phases, first_plan, has_few_cells, plan_for};
use crate::guessing::{Guesser, Guessing, TwoThreadGuesser};
use outside::Gate;
use settle_driver::{NoViewer, Plan, Viewer, WatchSettler};
use std::alloc::Global;
use std::thread::Threads;
use step_problem::{Barrier, Bound, Problem, SettleFault};

/// Settles by workers in threads, with the handle and the gate that it borrows. Its plan's rounds are plain phases;
/// what it does beside them only saves time, as does what it keeps from one step to the next.
#[derive(Drop)]
pub struct NearSettler<
    'a,
    R: Threads + Sync,
    G: Gate + Sync,
    S: Guesser = TwoThreadGuesser<'a, R>,
> {
    rt: &'a R,
    gate: &'a G,
    plan: Plan,
    guessing: Guessing<S>,
    pub ghost plan_fits: { IsPlan plan },
}

impl<'a, R: Threads + Sync, G: Gate + Sync> NearSettler<'a, R, G, TwoThreadGuesser<'a, R>> {
    /// A settler whose guesses are made in two threads, if its plan has two workers or more.
    pub fn new(rt: &'a R, plan: Plan, gate: &'a G) -> NearSettler<'a, R, G, TwoThreadGuesser<'a, R>>
        requires { IsPlan plan }
        ensures { result.plan ≡ plan }
    {
        NearSettler::with_guesser(rt, plan, gate, TwoThreadGuesser::new(rt, plan.workers))
    }
}

impl<'a, R: Threads + Sync, G: Gate + Sync, S: Guesser> NearSettler<'a, R, G, S> {
    /// A settler that tries the heads of any guesser.
    pub fn with_guesser(rt: &'a R, plan: Plan, gate: &'a G, guesser: S) -> NearSettler<'a, R, G, S>
        requires { IsPlan plan }
        ensures { result.plan ≡ plan }
    {
        NearSettler {
            rt,
            gate,
            plan,
            guessing: Guessing::new(guesser),
        }
    }

    // Tries a guess, which is not shown. Where that is not certified, makes the phases of the plan, from the words that are reached or from the barrier.
    fn settle_onward<V: Viewer + Send>(
        &self,
        alloc: Global,
        p: &Problem,
        b: &Barrier,
        plan: Plan,
        reached: Option<Vec<Bound>>,
        views: u32,
        viewer: &mut V,
    ) -> Result<Vec<Bound>, SettleFault>
        requires barrier { IsBarrier p.now b.now }
        requires plan { IsPlan plan }
        requires reached { IfSome reached (λ words. AreOnTheWay p.now b.now words.items) }
        ensures settles { Settles p.now b.now plan.rounds result }
        ensures viewed { (start : V) → AddsPhases V.viewed V.stopped p.now b.now views true start viewer.old
            → AddsPhases V.viewed V.stopped p.now b.now views (had_memory result) start viewer.new }
    {
        match self.guessing.settle(alloc, p, b) {
            Ok(bounds) => Ok(bounds),
            Err(SettleFault::Unfinished(_)) => {
                let settler = WatchSettler::new(self.rt, plan, self.gate, views);
                match reached {
                    Some(words) => settler.settle_from(alloc, p, b, words, viewer),
                    None => settler.settle(alloc, p, b, viewer),
                }
            }
            Err(SettleFault::Memory) => Err(SettleFault::Memory),
        }
    }

    /// The one settled pair, or Unfinished only where the plan's number of plain rounds does not settle. A problem of few cells begins with plain phases,
    /// another one with one short phase, but after a problem that a guess settled it has none. Then heads are guessed and tried, and then all the plain
    /// phases follow, from the words that the first ones reached. There is at most one worker for each 64 cells.
    pub fn settle(&self, alloc: Global, p: &Problem, b: &Barrier) -> Result<Vec<Bound>, SettleFault>
        requires { IsBarrier p.now b.now }
        ensures { Settles p.now b.now self.now.plan.rounds result }
    {
        self.settle_watched(alloc, p, b, 0, &mut NoViewer)
    }

    /// What `settle` gives, while a viewer watches the plain phases: `views` views in each. Where there are views each problem begins with
    /// plain phases. The heads of a guess are no bounds before they are certified, so they are not shown.
    pub fn settle_watched<V: Viewer + Send>(
        &self,
        alloc: Global,
        p: &Problem,
        b: &Barrier,
        views: u32,
        viewer: &mut V,
    ) -> Result<Vec<Bound>, SettleFault>
        requires barrier { IsBarrier p.now b.now }
        ensures settles { Settles p.now b.now self.now.plan.rounds result }
        ensures viewed { AddsPhases V.viewed V.stopped p.now b.now views (had_memory result) viewer.old viewer.new }
    {
        let cells = p.len();
        let plan = plan_for(self.plan, cells);
        if plan.rounds <= first_phases(cells) {
            return WatchSettler::new(self.rt, plan, self.gate, views).settle(alloc, p, b, viewer);
        }
        if views == 0 && !has_few_cells(cells) && self.guessing.has_guessed() {
            return self.settle_onward(alloc, p, b, plan, None, views, viewer);
        }
        let first = first_plan(plan, cells);
        match WatchSettler::new(self.rt, first, self.gate, views).settle(alloc, p, b, viewer) {
            Ok(bounds) => Ok(bounds),
            Err(SettleFault::Unfinished(open)) => {
                self.settle_onward(alloc, p, b, plan, Some(open.words), views, viewer)
            }
            Err(SettleFault::Memory) => Err(SettleFault::Memory),
        }
    }
}
