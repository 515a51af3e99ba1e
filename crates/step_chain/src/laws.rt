// Laws of the steps of decks. Each is the contract of an empty function, but for the laws below that it calls.
ghost use Rattle.step_chain.specs.{StepIsOne, StepExcludesRefusal, RefusalIsOne, HeadsFit, StepEncloses, WideKeepsSteps, HistoriesLieWithin};

use barrier_vector::laws::{
    no_barrier_beside_a_refusal, no_cut_barrier_beside_a_refusal, one_cut_barrier, one_cut_refusal,
    one_refusal as one_refusal_of_a_barrier,
};
use certificate_check::laws::{
    certificate_encloses, no_certificate_beside_a_refusal, one_range_refusal,
};
use deck_problems::laws::{constant_pairs, problems_fit, start_heads};
use step_problem::laws::settled_pair;

/// A time has at most one step from the heads before it.
pub fn one_step()
    ensures { StepIsOne }
{
    problems_fit();
    constant_pairs();
    one_cut_barrier();
    settled_pair();
}

/// A time with a step has no refusal.
pub fn no_step_beside_a_refusal()
    ensures { StepExcludesRefusal }
{
    problems_fit();
    no_barrier_beside_a_refusal();
    no_cut_barrier_beside_a_refusal();
    one_cut_barrier();
    settled_pair();
    no_certificate_beside_a_refusal();
}

/// A step has at most one refusal.
#[tactic(auto, using(crate::proofs::Refusals::refusals_one))]
pub fn one_refusal()
    ensures { RefusalIsOne }
{
    one_refusal_of_a_barrier();
    one_cut_refusal();
    problems_fit();
    no_barrier_beside_a_refusal();
    no_cut_barrier_beside_a_refusal();
    one_cut_barrier();
    settled_pair();
    one_range_refusal();
}

/// The heads of a step are in range.
pub fn heads_fit()
    ensures { HeadsFit }
{
    constant_pairs();
}

/// From all exact heads within the old ones, every solution of each choice lies within the heads of a step.
pub fn steps_enclose()
    ensures { StepEncloses }
{
    problems_fit();
    constant_pairs();
    certificate_encloses();
}

/// A step by plain limits is one by wide limits.
#[tactic(auto, using(crate::proofs::OneStep::wide_keeps))]
pub fn wide_keeps_steps()
    ensures { WideKeepsSteps }
{}

/// Every history between two decks lies within the heads of their steps.
pub fn histories_lie_within()
    ensures { HistoriesLieWithin }
{
    start_heads();
    steps_enclose();
    heads_fit();
}
