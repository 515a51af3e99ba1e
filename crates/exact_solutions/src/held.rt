// Steps whose heads are held have a solution, and one alone.
ghost use Rattle.exact_solutions.specs.{HeldHaveASolution, HeldHaveAtMostOne};

/// Each exact step that a problem encloses has a solution, where each component of the problem is held below and above.
#[tactic(auto, using(crate::proofs::HeldSteps::solution_exists))]
pub fn solution_exists()
    ensures { HeldHaveASolution }
{}

/// It has at most one, where each component is held below.
#[tactic(auto, using(crate::proofs::HeldSteps::solution_is_one))]
pub fn solution_is_one()
    ensures { HeldHaveAtMostOne }
{}
