// Steps with cells that nothing holds have no solution or many.
ghost use Rattle.exact_solutions.specs.{DrainedHaveAnother, AfloatHaveAnother};

/// Cells that nothing holds, and whose deep flows sum to at most 0: with each solution there is another one.
pub fn drained_have_another()
    ensures { DrainedHaveAnother }
{}

/// Cells that nothing holds, and where no river or drain conducts: with each solution there is another one.
pub fn afloat_have_another()
    ensures { AfloatHaveAnother }
{}
