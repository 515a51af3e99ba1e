// What a plan's listing encloses. The law is the contract of an empty function, but for the laws below that it calls.
ghost use Rattle.plan_run.specs.{HistoriesGiveWeathers, PlanListingIsOne, PlanListingsEnclose};

use barrier_vector::laws::{
    no_barrier_beside_a_refusal, no_cut_barrier_beside_a_refusal, one_cut_barrier, one_cut_refusal,
    one_refusal as one_refusal_of_a_barrier,
};
use certificate_check::laws::{no_certificate_beside_a_refusal, one_range_refusal};
use deck_problems::laws::{problems_fit, start_heads};
use plan_chain::laws::{both_have_one, plan_steps_enclose};
use plan_sources::laws::plan_flows_enclose;
use plan_wells::laws::planned_lie_between;
use step_chain::laws::{heads_fit, no_step_beside_a_refusal, one_refusal, one_step};
use step_problem::laws::settled_pair;

/// Every two histories of two plans in one weather lie within a whole listing, and there are such.
pub fn plan_listings_enclose()
    ensures { PlanListingsEnclose }
{
    start_heads();
    heads_fit();
    planned_lie_between();
    plan_steps_enclose();
    plan_flows_enclose();
    both_have_one();
}

/// A plan has one listing without `--quick`, unless its rounds don't settle a pair.
pub fn one_plan_listing()
    ensures { PlanListingIsOne }
{
    settled_pair();
    one_cut_barrier();
    no_barrier_beside_a_refusal();
    no_cut_barrier_beside_a_refusal();
    one_refusal_of_a_barrier();
    one_cut_refusal();
    no_certificate_beside_a_refusal();
    one_range_refusal();
    one_step();
    no_step_beside_a_refusal();
    one_refusal();
    problems_fit();
    start_heads();
    heads_fit();
    plan_steps_enclose();
}

/// Where each plan's model has one history, or so has each choice of weathers, each weather has one of both plans.
#[tactic(auto, using(crate::proofs::Weathers::histories_give_weathers))]
pub fn histories_give_weathers()
    ensures { HistoriesGiveWeathers }
{}
