// The exact step of the differences of two plans' heads.
ghost use Rattle.plan_difference.specs.{SolutionsBoundDifferences, DifferenceSolvesIt, DifferenceStepExists, EnclosesDifferences, IsMetByExample};

/// There is such a step: each river, drain and evapotranspiration gives more by a share of its conductance.
pub fn difference_step_exists()
    ensures { DifferenceStepExists }
{}

/// The difference of two plans' heads solves it.
pub fn difference_solves_it()
    ensures { DifferenceSolvesIt }
{}

/// A problem that bounds the differences, with a branch to 0 over any part of its conductance for each ramp, encloses it in every weather.
pub fn differences_are_enclosed()
    ensures { EnclosesDifferences }
{}

/// So what encloses all solutions of such a problem's steps, as a barrier does and a certificate over it, encloses the differences of the two plans' solutions.
pub fn solutions_bound_differences()
    ensures { SolutionsBoundDifferences }
{}

/// The laws are not empty: two cells and a plan that makes a river dry meet their premises.
pub fn worked_example()
    ensures { IsMetByExample }
{}
