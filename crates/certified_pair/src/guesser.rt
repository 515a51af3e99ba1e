// What guesses the pair of a step.
use head_guess::{Failed, Kept, guess_pair};
use std::alloc::{AllocError, Global};
use step_problem::{Barrier, Bound, Problem};

/// Guesses the pair of a step, from what the guess of the last one kept. The pairs may be any: each is tested, so that only running time and
/// the width of the pair depend on them.
pub trait PairGuesser: Drop {
    /// A pair; if one has failed, one that is made from it.
    fn guess(
        &self,
        alloc: Global,
        p: &Problem,
        b: &Barrier,
        failed: Option<Failed>,
        kept: &mut Kept,
    ) -> Result<Vec<Bound>, AllocError>;
}

/// Guesses balanced heads that are moved outwards, on the calling thread.
#[derive(Clone, Copy, Drop)]
pub struct BalancedGuesser;

impl PairGuesser for BalancedGuesser {
    fn guess(
        &self,
        alloc: Global,
        p: &Problem,
        b: &Barrier,
        failed: Option<Failed>,
        kept: &mut Kept,
    ) -> Result<Vec<Bound>, AllocError> {
        guess_pair(alloc, p, b, failed, kept)
    }
}
