// What a step's problem at heads says of the step.
ghost use Rattle.gentle_problem.specs.{ProblemsEnclose, ProblemsFit};

/// A problem at heads meets the conditions on problems.
pub fn problems_fit()
    ensures { ProblemsFit }
{}

/// It encloses the exact step without storage at all heads within the bounds.
pub fn problems_enclose()
    ensures { ProblemsEnclose }
{}
