// A pair that is tested.
ghost use Rattle.std.specs.Prelude.{IfOk, IfSome};
ghost use Rattle.step_problem.specs.{IsBarrier, AreInside};
ghost use Rattle.certified_pair.specs.{AreOrdered};

use crate::guesser::PairGuesser;
use crate::test::is_certified;
use head_guess::{Failed, Kept};
use std::alloc::{AllocError, Global};
use step_problem::{Barrier, Bound, Problem};

// The number of pairs that are tried.
const TRIES: u32 = 5;

/// A guessed pair that is a certificate of a problem and a barrier, one bound for each cell, with heads in range, none at its end, and in order: the first
/// guess, or one of those that are made from a failed one. None where all fail, which says nothing of the problem. What the guess of the last step kept
/// may be that of any problem.
pub fn certified_pair<G: PairGuesser>(
    guesser: &G,
    alloc: Global,
    p: &Problem,
    b: &Barrier,
    kept: &mut Kept,
) -> Result<Option<Vec<Bound>>, AllocError>
    requires { IsBarrier p.now b.now }
    ensures certified { IfOk result (λ found. IfSome found (λ pair. AreInside p.now b.now pair.items)) }
    ensures ordered { IfOk result (λ found. IfSome found (λ pair. AreOrdered pair.items)) }
{
    let mut failed: Option<Vec<Bound>> = None;
    for tries in 0..TRIES {
        let last = match &failed {
            Some(pair) => Some(Failed {
                pair: pair.as_slice(),
                tries,
            }),
            None => None,
        };
        let pair = guesser.guess(alloc, p, b, last, kept)?;
        if is_certified(p, b, pair.as_slice()) {
            return Ok(Some(pair));
        }
        failed = Some(pair);
    }
    Ok(None)
}
