// A model that is solved by hand.
ghost use Rattle.water_table.specs.{HasTwoSolutions};

/// The pumped cell: 0.6 m is gentle and is enclosed by a narrow pair with the signs; 0.25 m balances the cell too, and isn't gentle.
#[tactic(auto, using(crate::proofs::Pumped::has_two_solutions))]
pub fn pumped_cell_has_two()
    ensures { HasTwoSolutions }
{}
