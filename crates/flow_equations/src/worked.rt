// Models that are solved by hand.
ghost use Rattle.flow_equations.specs.{ThreeCells, IdleWells, OneCell, TwoCells};

/// Three cells in a row: heads of 10, 15 and 20.
#[tactic(auto, using(crate::proofs::Validity::three_valid, crate::proofs::Solved::three_solved))]
pub fn three_cells_in_a_row()
    ensures { ThreeCells }
{}

/// Wells in constant-head cells and in cells without flow have no effect.
#[tactic(auto, using(crate::proofs::Validity::idle_valid, crate::proofs::Solved::idle_solved))]
pub fn idle_wells()
    ensures { IdleWells }
{}

/// A transient cell with a well: heads of 5, 0 and -5.
#[tactic(auto, using(crate::proofs::Validity::one_valid, crate::proofs::Solved::one_solved))]
pub fn one_transient_cell()
    ensures { OneCell }
{}

/// Two cells without any other flow: every head is a solution.
#[tactic(auto, using(crate::proofs::Validity::two_valid, crate::proofs::Loose::loose_solved))]
pub fn two_loose_cells()
    ensures { TwoCells }
{}
