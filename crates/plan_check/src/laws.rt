// Laws of verdicts on a plan's listing. Each is the contract of an empty function, but for the laws below that it calls.
ghost use Rattle.plan_check.specs.{CertifiedPlansEnclose, PlanVerdictIsOne};

use barrier_vector::laws::{
    no_barrier_beside_a_refusal, no_cut_barrier_beside_a_refusal, one_cut_barrier, one_cut_refusal,
    one_refusal as one_refusal_of_a_barrier,
};
use deck_problems::laws::{constant_pairs, problems_fit, start_heads};
use plan_chain::laws::plan_steps_enclose;
use plan_sources::laws::plan_flows_enclose;
use plan_wells::laws::planned_lie_between;

/// A listing has at most one verdict.
pub fn one_plan_verdict()
    ensures { PlanVerdictIsOne }
{
    start_heads();
    problems_fit();
    constant_pairs();
    one_cut_barrier();
    no_barrier_beside_a_refusal();
    no_cut_barrier_beside_a_refusal();
    one_refusal_of_a_barrier();
    one_cut_refusal();
}

/// Every two histories of two plans in one weather lie within a certified listing, and there are such.
pub fn certified_plans_enclose()
    ensures { CertifiedPlansEnclose }
{
    start_heads();
    planned_lie_between();
    plan_steps_enclose();
    plan_flows_enclose();
}
