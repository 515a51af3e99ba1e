// Laws of budgets. Each is the contract of an empty function.
ghost use Rattle.budget_bounds.specs.{CoverEncloses, HeadsAreWithin};

/// Heads of a solution that lie between the bounds are among the heads that a budget is about.
#[tactic(auto, using(crate::proofs::Enclosed::heads_within))]
pub fn heads_within()
    ensures { HeadsAreWithin }
{}

/// A value in the bounds of a budget lies in those of one that covers it.
pub fn cover_encloses()
    ensures { CoverEncloses }
{}
