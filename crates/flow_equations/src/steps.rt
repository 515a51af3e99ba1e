// The exact equations of a step.
ghost use Rattle.flow_equations.specs.{HasAnEquationEach, LinksAreMutual};

/// The exact step has one equation for each variable cell of the period, by ascending cell number.
#[tactic(auto, using(crate::proofs::Links::ids_are))]
pub fn equation_each()
    ensures { HasAnEquationEach }
{}

/// Links lead to different other variable cells, and the two ends of each have the same conductance.
pub fn links_are_mutual()
    ensures { LinksAreMutual }
{}
