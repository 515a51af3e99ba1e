// What gives the pairs of a run's steps, each by a tested guess or by a settler.
ghost use Rattle.std.specs.Prelude.{◌≡◌};

use crate::guesser::{BalancedGuesser, PairGuesser};
use crate::pair::certified_pair;
use head_guess::Kept;
use outside::SinkError;
use settle_driver::StepSettler;
use std::alloc::{AllocError, Global};
use step_problem::{Barrier, Bound, Problem, SettleFault, Settler};

/// Gives the pair of each step: a guess that passes the test, or else what a settler gives. What the guess of a step keeps makes the next one faster.
#[derive(Drop)]
pub struct QuickPairs<S: Settler + Drop, G: PairGuesser = BalancedGuesser> {
    pub settler: S,
    guesser: G,
    kept: Kept,
}

impl<S: Settler + Drop> QuickPairs<S, BalancedGuesser> {
    /// By balanced heads, or by this settler.
    pub fn new(settler: S) -> QuickPairs<S, BalancedGuesser>
        ensures { result.settler ≡ settler }
    {
        QuickPairs::with_guesser(settler, BalancedGuesser)
    }
}

impl<S: Settler + Drop, G: PairGuesser> QuickPairs<S, G> {
    /// By any guesser, or by this settler.
    pub fn with_guesser(settler: S, guesser: G) -> QuickPairs<S, G>
        ensures { result.settler ≡ settler }
    {
        QuickPairs {
            settler,
            guesser,
            kept: Kept::new(),
        }
    }
}

impl<S: Settler + Drop, G: PairGuesser> Settler for QuickPairs<S, G> {
    ghost use Rattle.step_problem.specs.Settling.PairKind.{certified};

    ghost pairs = { certified };

    ghost rounds = { λ s. S.rounds s.settler };

    ghost ready = { λ s. S.ready s.settler };

    // A call may take any state to any other.
    ghost leads = { λ _ _ _ _ _. Unit {0} };

    // Unfinished only where no guess passes and the settler's rounds do not settle.
    fn settle(
        &mut self,
        alloc: Global,
        p: &Problem,
        b: &Barrier,
    ) -> Result<Vec<Bound>, SettleFault> {
        match certified_pair(&self.guesser, alloc, p, b, &mut self.kept) {
            Ok(Some(pair)) => Ok(pair),
            Ok(None) => {
                p.recall_conditions();
                self.settler.settle(alloc, p, b)
            }
            Err(AllocError) => Err(SettleFault::Memory),
        }
    }
}

impl<S: StepSettler + Drop, G: PairGuesser> StepSettler for QuickPairs<S, G> {
    // Its settler is told each step, and says why a run has to stop.
    ghost begins = { λ s period step t. S.begins s.settler period step t.settler };

    ghost stop = { λ s. S.stop s.settler };

    fn begin(&mut self, period: u32, step: u32) {
        self.settler.begin(period, step);
    }

    fn stop(&self) -> Option<SinkError> {
        self.settler.stop()
    }
}
