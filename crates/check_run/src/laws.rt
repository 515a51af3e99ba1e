// Laws of verdicts. Each is the contract of an empty function, but for the laws below that it calls.
ghost use Rattle.check_run.specs.{VerdictIsOne, RunIsCertified, RunIsReadAgain};

use barrier_vector::laws::{
    no_barrier_beside_a_refusal, no_cut_barrier_beside_a_refusal, one_cut_barrier, one_cut_refusal,
    one_refusal as one_refusal_of_a_barrier,
};
use deck_problems::laws::{constant_pairs, problems_fit, start_heads};
use listing_io::laws::listings_are_read_again;
use step_chain::laws::heads_fit;

/// A listing has at most one verdict.
pub fn one_verdict()
    ensures { VerdictIsOne }
{
    start_heads();
    problems_fit();
    one_cut_barrier();
    no_barrier_beside_a_refusal();
    no_cut_barrier_beside_a_refusal();
    one_refusal_of_a_barrier();
    one_cut_refusal();
}

/// The listing of a run is certified.
pub fn run_is_certified()
    ensures { RunIsCertified }
{
    start_heads();
    problems_fit();
    constant_pairs();
    heads_fit();
}

/// The bytes that a run writes are read as the listing of the run.
pub fn run_is_read_again()
    ensures { RunIsReadAgain }
{
    start_heads();
    heads_fit();
    listings_are_read_again();
}
