// The test of a pair.
ghost use Rattle.std.specs.Prelude.{◌↔◌, ◌<ℤ◌, neg_ℤ, pos, All, IsTrue};
ghost use Rattle.step_problem.specs.{head_limit, IsBarrier, AreInside};
ghost use Rattle.certified_pair.specs.{AreOrdered};

use cell_relax::are_words;
use certificate_check::{Verdict, check_step};
use step_problem::problem::HEAD_LIMIT;
use step_problem::{Barrier, Bound, Problem};

// Whether each lower head is at most the upper one.
fn are_ordered(bounds: &[Bound]) -> bool
    ensures { IsTrue result ↔ AreOrdered bounds.now }
{
    bounds.iter().all(|bound| bound.low <= bound.high)
}

// Whether no head is at the end of the range of heads.
fn are_inside(bounds: &[Bound]) -> bool
    ensures { IsTrue result ↔ All (λ bound. (neg_ℤ (pos head_limit) <ℤ bound.low) × (bound.high <ℤ pos head_limit)) bounds.now }
{
    bounds
        .iter()
        .all(|bound| -HEAD_LIMIT < bound.low && bound.high < HEAD_LIMIT)
}

/// Whether bounds are a certificate of a problem and a barrier, one for each cell, with heads in range, none at its end, and in order.
pub fn is_certified(p: &Problem, b: &Barrier, bounds: &[Bound]) -> bool
    requires { IsBarrier p.now b.now }
    ensures { IsTrue result ↔ (AreInside p.now b.now bounds.now × AreOrdered bounds.now) }
{
    if !are_words(p, bounds) || !are_ordered(bounds) || !are_inside(bounds) {
        return false;
    }
    match check_step(p, b, bounds) {
        Verdict::Yes => true,
        Verdict::No { .. } => false,
    }
}
