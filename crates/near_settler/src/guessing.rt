// Settling from guessed heads.
ghost use Rattle.step_problem.specs.{IsBarrier, Settles};

use head_guess::{Guess, Kept, guess_heads, guess_in_two_threads};
use settle_driver::{PlainSettler, settle_near};
use std::alloc::{AllocError, Global};
use std::cell::Cell;
use std::thread::Threads;
use step_problem::{Barrier, Bound, Problem, SettleFault};

// Trials from a guess, and the sweeps of each: right heads take one trial and one sweep.
const TRIALS: u32 = 4;

const SWEEPS: u32 = 32;

// From a guess by trials on one thread. Unfinished where none of them certifies the settled pair.
fn settle_by_guess<S: Guesser>(
    guesser: &S,
    alloc: Global,
    p: &Problem,
    b: &Barrier,
    kept: &mut Kept,
) -> Result<Vec<Bound>, SettleFault>
    requires { IsBarrier p.now b.now }
    ensures { Settles p.now b.now 0 result }
{
    let Guess { bounds, order } = match guesser.guess(alloc, p, b, kept) {
        Ok(guess) => guess,
        Err(AllocError) => return Err(SettleFault::Memory),
    };
    let mut trial = PlainSettler::with_list(order.as_slice(), SWEEPS);
    let mut no_rounds = PlainSettler::new(0);
    settle_near(&mut trial, &mut no_rounds, alloc, p, b, bounds, TRIALS)
}

/// A guesser, and what the last guess kept if it settled its problem, so that the next step takes less time.
#[derive(Drop)]
pub(crate) struct Guessing<S: Guesser> {
    guesser: S,
    kept: Cell<Option<Kept>>,
}

impl<S: Guesser> Guessing<S> {
    /// As before the first step.
    pub(crate) fn new(guesser: S) -> Guessing<S> {
        Guessing {
            guesser,
            kept: Cell::new(None),
        }
    }

    /// Whether a guess settled the last problem.
    pub(crate) fn has_guessed(&self) -> bool {
        let kept = self.kept.replace(None);
        let has_guessed = kept.is_some();
        self.kept.set(kept);
        has_guessed
    }

    /// From a guess by trials on one thread. Unfinished where none of them certifies the settled pair; then nothing is kept.
    pub(crate) fn settle(
        &self,
        alloc: Global,
        p: &Problem,
        b: &Barrier,
    ) -> Result<Vec<Bound>, SettleFault>
        requires { IsBarrier p.now b.now }
        ensures { Settles p.now b.now 0 result }
    {
        let mut kept = match self.kept.replace(None) {
            Some(kept) => kept,
            None => Kept::new(),
        };
        let settled = settle_by_guess(&self.guesser, alloc, p, b, &mut kept);
        if settled.is_ok() {
            self.kept.set(Some(kept));
        } else {
            drop(kept);
        }
        settled
    }
}

// What guesses the heads of a step.

/// Guesses the heads of a step, from what the guess of the last one kept. The heads may be any: a settler tries each guess, so that only
/// running time depends on it.
pub trait Guesser: Drop {
    fn guess(
        &self,
        alloc: Global,
        p: &Problem,
        b: &Barrier,
        kept: &mut Kept,
    ) -> Result<Guess, AllocError>;
}

/// Guesses heads near the settled ones, on the calling thread.
#[derive(Clone, Copy, Drop)]
pub struct NearGuesser;

impl Guesser for NearGuesser {
    fn guess(
        &self,
        alloc: Global,
        p: &Problem,
        b: &Barrier,
        kept: &mut Kept,
    ) -> Result<Guess, AllocError> {
        guess_heads(alloc, p, b, kept)
    }
}

// Problems of fewer cells are guessed on one thread.
const CELLS_OF_TWO: usize = 4_000;

/// Guesses heads near the settled ones, both sides in two threads where there are two workers or more, and many cells.
#[derive(Drop)]
pub struct TwoThreadGuesser<'a, R: Threads> {
    rt: &'a R,
    workers: u32,
}

impl<'a, R: Threads> TwoThreadGuesser<'a, R> {
    /// A guesser for a run of this many workers, with the handle that it borrows.
    pub fn new(rt: &'a R, workers: u32) -> TwoThreadGuesser<'a, R> {
        TwoThreadGuesser { rt, workers }
    }
}

impl<R: Threads> Guesser for TwoThreadGuesser<'_, R> {
    fn guess(
        &self,
        alloc: Global,
        p: &Problem,
        b: &Barrier,
        kept: &mut Kept,
    ) -> Result<Guess, AllocError> {
        if self.workers < 2 || p.len() < CELLS_OF_TWO {
            return guess_heads(alloc, p, b, kept);
        }
        guess_in_two_threads(self.rt, alloc, p, b, kept)
    }
}
