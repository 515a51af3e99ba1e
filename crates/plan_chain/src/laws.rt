// What the steps of a plan's listing enclose. Each law is the contract of an empty function, but for the laws below that it calls.
ghost use Rattle.plan_chain.specs.{BothHaveOne, PairsLieWithin, PlanStepEncloses};

use certificate_check::laws::certificate_encloses;
use deck_problems::laws::{problems_fit, start_heads};
use plan_histories::laws::{planned_steps, wells_keep_apart};
use plan_step::laws::solutions_bound_plans;
use plan_wells::laws::planned_lie_between;
use step_chain::laws::{heads_fit, steps_enclose};

/// A step encloses both plans' heads and their differences, in each weather, from all exact heads within those before it.
pub fn plan_steps_enclose()
    ensures { PlanStepEncloses }
{
    problems_fit();
    steps_enclose();
    certificate_encloses();
    planned_lie_between();
    planned_steps();
    wells_keep_apart();
    solutions_bound_plans();
}

/// Every pair of histories of two plans in one weather lies within the steps of a whole listing.
pub fn pairs_lie_within()
    ensures { PairsLieWithin }
{
    start_heads();
    heads_fit();
    planned_lie_between();
    plan_steps_enclose();
}

/// Where all steps are solved, each plan's model has one history, or so has each choice of models between two.
pub fn both_have_one()
    ensures { BothHaveOne }
{}
