// What the flows of a plan's step enclose. Each law is the contract of an empty function, but for the laws below that it calls.
ghost use Rattle.plan_sources.specs.{PlanFlowsEnclose, PlanStepsHaveFlows};

use certificate_check::laws::certificate_encloses;
use deck_problems::laws::problems_fit;
use plan_chain::laws::plan_steps_enclose;
use plan_enclosed::laws::{sources_enclose, zones_enclose};
use plan_histories::laws::{planned_steps, wells_keep_apart};
use plan_step::laws::solutions_bound_plans;
use plan_wells::laws::planned_lie_between;
use step_chain::laws::steps_enclose;

/// A step of a plan meets the conditions of `plan_flows`.
pub fn plan_steps_have_flows()
    ensures { PlanStepsHaveFlows }
{}

/// The flows of a plan's step enclose what each term, and each flow between zones, has more under the plan, in each weather.
pub fn plan_flows_enclose()
    ensures { PlanFlowsEnclose }
{
    problems_fit();
    steps_enclose();
    certificate_encloses();
    planned_lie_between();
    planned_steps();
    wells_keep_apart();
    solutions_bound_plans();
    plan_steps_enclose();
    sources_enclose();
    zones_enclose();
}
