// Steps and listings exist, or a refusal says why not. Each law is the contract of a function without results, which calls the laws below that it stands on.
ghost use Rattle.step_or_refusal.specs.{StepOrRefusal, ListingOrRefusal, BarrierOrRefusal, CutBarrierOrRefusal};

use problem_builder::laws::{problems_fit, start_heads_fit};
use step_chain::laws::heads_fit;
use step_problem::laws::settled_pair;

/// A time of a valid model, from heads of all its cells, has a settled step or a refusal.
pub fn step_or_refusal()
    ensures { StepOrRefusal }
{
    problems_fit();
    barrier_or_refusal();
    cut_barrier_or_refusal();
    settled_pair();
}

/// A model has a whole listing, or a first refusal at one of its times.
pub fn listing_or_refusal()
    ensures { ListingOrRefusal }
{
    step_or_refusal();
    heads_fit();
    problems_fit();
    start_heads_fit();
}

/// A problem has a barrier, or a refusal says why it has none.
pub fn barrier_or_refusal()
    ensures { BarrierOrRefusal }
{}

/// A problem has a cut barrier, or a refusal says which cell has no bound.
pub fn cut_barrier_or_refusal()
    ensures { CutBarrierOrRefusal }
{}
