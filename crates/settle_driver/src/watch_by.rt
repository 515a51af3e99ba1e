// A settler by a closure that shows heads to a viewer.
ghost use Rattle.std.specs.Prelude.{◌≡◌};
ghost use Rattle.step_problem.specs.{settled};

use crate::viewer::Viewer;
use std::alloc::Global;
use step_problem::{Barrier, Bound, Problem, SettleFault, Settler};

/// A settler by a closure, which is lent a viewer. It is ready where the closure may be called with every problem, barrier and viewer, settles them with
/// `rounds` rounds, and shows the viewer `views` views in each phase. A function that has the handle writes the closure, as over a `WatchSettler`.
#[derive(Drop)]
pub struct WatchedClosureSettler<
    'a,
    V: Viewer,
    F: Fn(Global, &Problem, &Barrier, &mut V) -> Result<Vec<Bound>, SettleFault> + Drop,
> {
    rounds: u32,
    views: u32,
    pub(crate) viewer: &'a mut V,
    call: F,
}

impl<
    'a,
    V: Viewer,
    F: Fn(Global, &Problem, &Barrier, &mut V) -> Result<Vec<Bound>, SettleFault> + Drop,
> WatchedClosureSettler<'a, V, F> {
    pub fn new(
        rounds: u32,
        views: u32,
        viewer: &'a mut V,
        call: F,
    ) -> WatchedClosureSettler<'a, V, F>
        ensures numbers { (result.rounds ≡ rounds) × (result.views ≡ views) }
        ensures call { result.call ≡ call }
        ensures viewer { (result.viewer.ghost_name ≡ viewer.entry.ghost_name) × (result.viewer.now ≡ viewer.entry.now) }
    {
        WatchedClosureSettler {
            rounds,
            views,
            viewer,
            call,
        }
    }
}

impl<
    'a,
    V: Viewer,
    F: Fn(Global, &Problem, &Barrier, &mut V) -> Result<Vec<Bound>, SettleFault> + Drop,
> Settler for WatchedClosureSettler<'a, V, F> {
    ghost use Rattle.std.specs.Prelude.{List};
    ghost use Rattle.std.specs.Borrow.{Bor, MutBor};
    ghost use Rattle.step_problem.specs.Entries.{Entries};
    ghost use Rattle.step_problem.specs.Heads.{Edges, IsBarrier};
    ghost use Rattle.step_problem.specs.Settling.{Settles};
    ghost use Rattle.settle_driver.specs.Views.{AddsPhases, had_memory};

    ghost pairs = { settled };

    ghost rounds = { λ s. s.rounds };

    ghost ready = { λ s. (a : _) (p : Bor (List Entries)) (b : Bor Edges) (v : MutBor V) → IsBarrier p.now b.now → F.pre s.call a p b v
        × ((r : _) (w : MutBor V) → F.post s.call a p b v r w
        → Settles p.now b.now s.rounds r × AddsPhases V.viewed V.stopped p.now b.now s.views (had_memory r) v.now w.now) };

    // A settling adds its phases to the viewer that is lent.
    ghost leads = { λ s p b ended t. (t.views ≡ s.views) × (t.viewer.ghost_name ≡ s.viewer.ghost_name)
        × AddsPhases V.viewed V.stopped p b s.views ended s.viewer.now t.viewer.now };

    fn settle(
        &mut self,
        alloc: Global,
        p: &Problem,
        b: &Barrier,
    ) -> Result<Vec<Bound>, SettleFault> {
        (self.call)(alloc, p, b, self.viewer)
    }
}
