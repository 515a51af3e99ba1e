// What the problem of the differences encloses. Each law is the contract of an empty function.
ghost use Rattle.plan_step.specs.{DifferencesHaveAStep, DrainsAreEnclosed, EvapsAreEnclosed, RiversAreEnclosed, SolutionsBoundPlans};

/// What acts of a river, a drain or an evapotranspiration between any heads within the bounds lies between the bounds of its branch.
pub fn branches_are_enclosed()
    ensures rivers { RiversAreEnclosed }
    ensures drains { DrainsAreEnclosed }
    ensures evaps { EvapsAreEnclosed }
{}

/// The problem encloses the step of the differences of both plans' heads within their bounds, whatever the weather.
pub fn differences_have_a_step()
    ensures { DifferencesHaveAStep }
{}

/// So what encloses all its solutions encloses the differences of both plans' solutions.
pub fn solutions_bound_plans()
    ensures { SolutionsBoundPlans }
{}
