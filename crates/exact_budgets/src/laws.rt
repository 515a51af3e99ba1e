// What the budgets of exact solutions are.
ghost use Rattle.exact_budgets.specs.{SolutionsBalance, NetTermsLieInTheOthers, StepsHaveTheirTimes, CertifiedHaveTheirTimes, LoneCellsHaveTheirFlows};
ghost use Rattle.exact_budgets.specs.{PumpedCell, MiddleCell};

/// In the budget of each solution of a step TOTAL IN is TOTAL OUT, and the net terms sum to 0.
pub fn in_is_out()
    ensures { SolutionsBalance }
{}

/// Where a listing encloses every history, each net term of a history lies also in minus the sum of the others' bounds.
pub fn net_terms_lie_in_the_others()
    ensures { NetTermsLieInTheOthers }
{}

/// The values of a whole listing are at the times of its model, and so are those of a certified one.
pub fn steps_have_their_times()
    ensures whole { StepsHaveTheirTimes }
    ensures certified { CertifiedHaveTheirTimes }
{}

/// The zone flows of a cell that is alone in its zone are the flows over its links and to constant heads.
#[tactic(auto, using(crate::proofs::LoneCells::lone_cells))]
pub fn lone_cells_have_their_flows()
    ensures { LoneCellsHaveTheirFlows }
{}

/// A well takes 5 out of storage, which is listed from 4 to 6: by the well it is 5.
#[tactic(auto, using(crate::proofs::Worked::pumped_cell))]
pub fn pumped_cell()
    ensures { PumpedCell }
{}

/// Three cells in a row, each in a zone of its own, with heads of 10, 15 and 20: 5 flows back from each to the one before.
#[tactic(auto, using(crate::proofs::Worked::middle_cell))]
pub fn middle_cell()
    ensures { MiddleCell }
{}
