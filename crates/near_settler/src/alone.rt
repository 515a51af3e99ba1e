// A settler that starts no thread.
ghost use Rattle.std.specs.Prelude.{◌≡◌, IfSome};
ghost use Rattle.step_problem.specs.{AreOnTheWay, IsBarrier, Settles, settled};

use crate::first::{first_sweeps, has_few_cells};
use crate::guessing::{Guesser, Guessing, NearGuesser};
use settle_driver::PlainSettler;
use std::alloc::Global;
use step_problem::{Barrier, Bound, Problem, SettleFault, Settler};

/// Settles as a `PlainSettler` with this many sweeps does, on the calling thread. A guess after the first sweeps only
/// saves time, as does what is kept from one step to the next.
#[derive(Drop)]
pub struct SerialSettler<S: Guesser = NearGuesser> {
    rounds: u32,
    guessing: Guessing<S>,
}

impl SerialSettler<NearGuesser> {
    /// A settler of at most `rounds` plain sweeps.
    pub fn new(rounds: u32) -> SerialSettler<NearGuesser>
        ensures { SerialSettler.rounds result ≡ rounds }
    {
        SerialSettler::with_guesser(NearGuesser, rounds)
    }
}

// By at most `rounds` plain sweeps, from the words that earlier ones have reached, or from the barrier.
fn sweep(
    alloc: Global,
    p: &Problem,
    b: &Barrier,
    rounds: u32,
    reached: Option<Vec<Bound>>,
) -> Result<Vec<Bound>, SettleFault>
    requires barrier { IsBarrier p.now b.now }
    requires reached { IfSome reached (λ words. AreOnTheWay p.now b.now words.items) }
    ensures { Settles p.now b.now rounds result }
{
    let mut settler = PlainSettler::new(rounds);
    match reached {
        None => settler.settle(alloc, p, b),
        Some(words) => settler.settle_from(p, b, words),
    }
}

impl<S: Guesser> SerialSettler<S> {
    /// A settler of at most `rounds` plain sweeps, which tries the heads of any guesser.
    pub fn with_guesser(guesser: S, rounds: u32) -> SerialSettler<S>
        ensures { SerialSettler.rounds result ≡ rounds }
    {
        SerialSettler {
            rounds,
            guessing: Guessing::new(guesser),
        }
    }
}

impl<S: Guesser> Settler for SerialSettler<S> {
    ghost pairs = { settled };

    ghost rounds = { λ s. s.rounds };

    ghost ready = { λ _. Unit {0} };

    // Any settling may take any state to any other.
    ghost leads = { λ _ _ _ _ _. Unit {0} };

    // By `first` sweeps, then by a guess, and then by all the sweeps, which go on from the words that the first ones reached.
    fn settle(
        &mut self,
        alloc: Global,
        p: &Problem,
        b: &Barrier,
    ) -> Result<Vec<Bound>, SettleFault> {
        let cells = p.len();
        let first = first_sweeps(cells);
        if self.rounds <= first {
            return sweep(alloc, p, b, self.rounds, None);
        }
        let mut reached = None;
        if has_few_cells(cells) || !self.guessing.has_guessed() {
            match sweep(alloc, p, b, first, None) {
                Ok(bounds) => return Ok(bounds),
                Err(SettleFault::Unfinished(open)) => reached = Some(open.words),
                Err(SettleFault::Memory) => return Err(SettleFault::Memory),
            }
        }
        match self.guessing.settle(alloc, p, b) {
            Ok(bounds) => Ok(bounds),
            Err(SettleFault::Unfinished(_)) => sweep(alloc, p, b, self.rounds, reached),
            Err(SettleFault::Memory) => Err(SettleFault::Memory),
        }
    }
}
