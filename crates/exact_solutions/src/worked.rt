// Steps that are solved by hand.
ghost use Rattle.exact_solutions.specs.{WellPastDeepFlow, WellWithinDeepFlow, WellOfDeepFlow, TwoLooseCells};

/// A well that takes more than the deep flow of its cell's river: no heads are a solution.
#[tactic(auto, using(crate::proofs::WorkedSteps::well_past_deep_flow))]
pub fn well_past_the_deep_flow()
    ensures { WellPastDeepFlow }
{}

/// A well that takes less: the stage less what the well takes is the one solution.
pub fn well_within_the_deep_flow()
    ensures { WellWithinDeepFlow }
{}

/// A well that takes just the deep flow: there are many solutions.
#[tactic(auto, using(crate::proofs::WorkedSteps::well_of_deep_flow))]
pub fn well_of_the_deep_flow()
    ensures { WellOfDeepFlow }
{}

/// Two cells without a stress: there are many solutions.
#[tactic(auto, using(crate::proofs::WorkedSteps::two_loose_cells))]
pub fn two_loose_cells()
    ensures { TwoLooseCells }
{}
