// Who settles the steps of a run, and who looks at them.
ghost use Rattle.std.specs.Prelude.{◌≡◌, ℕ, Option};
ghost use Rattle.outside.specs.declared.traits.SinkError.{SinkError};

use crate::thread_settler::ClosureSettler;
use crate::viewer::Viewer;
use crate::watch_by::WatchedClosureSettler;
use outside::SinkError;
use std::alloc::Global;
use step_problem::{Barrier, Bound, Problem, SettleFault, Settler};

/// A viewer of one time step after another. It is told the stress period and the number of each, and says why a run has to stop.
pub trait StepViewer: Viewer {
    ghost begins: { Self → ℕ → ℕ → Self → Type 0 };

    ghost stop: { Self → Option SinkError };

    fn begin(&mut self, period: u32, step: u32)
        ensures { begins self.old period step self.new };

    fn stop(&self) -> Option<SinkError>
        ensures { result ≡ stop self.now };
}

/// A settler of one time step after another. It is told the stress period and the number of each, and says why a run has to stop.
pub trait StepSettler: Settler {
    ghost begins: { Self → ℕ → ℕ → Self → Type 0 };

    ghost stop: { Self → Option SinkError };

    fn begin(&mut self, period: u32, step: u32)
        requires ready { Self.ready self.old }
        ensures begins { begins self.old period step self.new }
        ensures rounds { Self.rounds self.new ≡ Self.rounds self.old }
        ensures ready { Self.ready self.new };

    fn stop(&self) -> Option<SinkError>
        ensures { result ≡ stop self.now };
}

impl<F: Fn(Global, &Problem, &Barrier) -> Result<Vec<Bound>, SettleFault> + Drop> StepSettler
    for ClosureSettler<F> {
    ghost use Rattle.std.specs.Prelude.{None};

    // It settles each step alike, and never stops.
    ghost begins = { λ s _ _ t. t ≡ s };

    ghost stop = { λ _. None };

    fn begin(&mut self, _period: u32, _step: u32) {}

    fn stop(&self) -> Option<SinkError> {
        None
    }
}

impl<
    'a,
    V: StepViewer,
    F: Fn(Global, &Problem, &Barrier, &mut V) -> Result<Vec<Bound>, SettleFault> + Drop,
> StepSettler for WatchedClosureSettler<'a, V, F> {
    // The viewer is told.
    ghost begins = { λ s period step t. (t.views ≡ s.views) × (t.viewer.ghost_name ≡ s.viewer.ghost_name)
        × V.begins s.viewer.now period step t.viewer.now };

    ghost stop = { λ s. V.stop s.viewer.now };

    fn begin(&mut self, period: u32, step: u32) {
        self.viewer.begin(period, step);
    }

    fn stop(&self) -> Option<SinkError> {
        self.viewer.stop()
    }
}
