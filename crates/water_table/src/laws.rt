// What the definitions owe to the manual.
ghost use Rattle.water_table.specs.{ThickBranchesAreConfined, LosesByCases};

/// With THICK for the thickness of each cell, branches are the confined model's.
#[tactic(auto, using(crate::proofs::Confined::thick_branches_are_confined))]
pub fn confined_branches()
    ensures { ThickBranchesAreConfined }
{}

/// The water that a convertible cell loses is LPF's: by SY below the top, by SS above it, and by the sum of both where the head crosses it.
#[tactic(auto, using(crate::proofs::Cases::loses_by_cases))]
pub fn storage_across_the_top()
    ensures { LosesByCases }
{}
