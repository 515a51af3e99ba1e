// Settlers by workers in threads.
ghost use Rattle.std.specs.Prelude.{◌≡◌};
ghost use Rattle.step_problem.specs.{IsBarrier, Settles, settled};
ghost use Rattle.settle_driver.specs.Views.{IsPlan};

use crate::phases::Plan;
use crate::viewer::NoViewer;
use crate::watched::WatchSettler;
use outside::Gate;
use std::alloc::Global;
use std::thread::Threads;
use step_problem::{Barrier, Bound, Problem, SettleFault, Settler};

/// Settles a problem by the plan's workers, which share its heads: the one settled pair, or Unfinished only
/// where the plan's number of plain rounds does not settle. Without variable cells the result is an empty list.
pub fn settle<R: Threads + Sync, G: Gate + Sync>(
    rt: &R,
    alloc: Global,
    p: &Problem,
    b: &Barrier,
    plan: Plan,
    gate: &G,
) -> Result<Vec<Bound>, SettleFault>
    requires barrier { IsBarrier p.now b.now }
    requires plan { IsPlan plan }
    ensures { Settles p.now b.now plan.rounds result }
{
    WatchSettler::new(rt, plan, gate, 0).settle(alloc, p, b, &mut NoViewer)
}

/// Settles by workers in threads, with the handle and the gate that it borrows.
#[derive(Drop)]
pub struct ThreadSettler<'a, R: Threads + Sync, G: Gate + Sync> {
    rt: &'a R,
    gate: &'a G,
    plan: Plan,
    pub ghost plan_fits: { IsPlan plan },
}

impl<'a, R: Threads + Sync, G: Gate + Sync> ThreadSettler<'a, R, G> {
    pub fn new(rt: &'a R, plan: Plan, gate: &'a G) -> ThreadSettler<'a, R, G>
        requires { IsPlan plan }
        ensures { result.plan ≡ plan }
    {
        ThreadSettler { rt, gate, plan }
    }

    pub fn settle(&self, alloc: Global, p: &Problem, b: &Barrier) -> Result<Vec<Bound>, SettleFault>
        requires { IsBarrier p.now b.now }
        ensures { Settles p.now b.now self.now.plan.rounds result }
    {
        settle(self.rt, alloc, p, b, self.plan, self.gate)
    }
}

/// A settler by a closure. It is ready if the closure may be called with every problem and barrier and
/// settles them within `rounds` rounds. A function that has the handle writes the closure over a `ThreadSettler`.
#[derive(Drop)]
pub struct ClosureSettler<
    F: Fn(Global, &Problem, &Barrier) -> Result<Vec<Bound>, SettleFault> + Drop,
> {
    rounds: u32,
    call: F,
}

impl<F: Fn(Global, &Problem, &Barrier) -> Result<Vec<Bound>, SettleFault> + Drop> ClosureSettler<
    F,
> {
    pub fn new(rounds: u32, call: F) -> ClosureSettler<F>
        ensures { (result.rounds ≡ rounds) × (result.call ≡ call) }
    {
        ClosureSettler { rounds, call }
    }
}

impl<F: Fn(Global, &Problem, &Barrier) -> Result<Vec<Bound>, SettleFault> + Drop> Settler
    for ClosureSettler<F> {
    ghost use Rattle.std.specs.Prelude.{List};
    ghost use Rattle.std.specs.Borrow.{Bor};
    ghost use Rattle.step_problem.specs.Entries.{Entries};
    ghost use Rattle.step_problem.specs.Heads.{Edges};

    ghost pairs = { settled };

    ghost rounds = { λ s. s.rounds };

    ghost ready = { λ s. (a : _) (p : Bor (List Entries)) (b : Bor Edges) → IsBarrier p.now b.now → F.pre s.call a p b
        × ((r : _) → F.post s.call a p b r → Settles p.now b.now s.rounds r) };

    // A settling leaves it as it was.
    ghost leads = { λ s _ _ _ t. t ≡ s };

    fn settle(
        &mut self,
        alloc: Global,
        p: &Problem,
        b: &Barrier,
    ) -> Result<Vec<Bound>, SettleFault> {
        (self.call)(alloc, p, b)
    }
}
