// Laws of exact balances. Each is the contract of an empty function.
ghost use Rattle.cell_balance.specs.{LinksCancel, BalanceFalls, BalanceRises, DryLaw, IsComparable, Compares, FlowsAreRight, BoundsHold, example_problem};
ghost use Rattle.cell_balance.specs.{example_step, example_heads, example_barrier, example_lows, example_highs};

/// Single flows are what the manual says: rivers, drains and evapotranspirations above and below their elevations.
#[tactic(auto, using(crate::proofs::EntryFlows::flows_are_right))]
pub fn single_flows()
    ensures { FlowsAreRight }
{}

/// The bounds of single flows enclose them, wherever the heads lie between their bounds.
#[tactic(auto, using(crate::proofs::EntryBounds::bounds_hold))]
pub fn bounds_of_flows()
    ensures { BoundsHold }
{}

/// Over a set of cells closed under links, the flows over links cancel.
#[tactic(auto, using(crate::proofs::ExactLaws::links_cancel))]
pub fn links_cancel()
    ensures { LinksCancel }
{}

/// A balance falls weakly in its own head and rises weakly in each other.
#[tactic(auto, using(crate::proofs::ExactLaws::balance_falls, crate::proofs::ExactLaws::balance_rises))]
pub fn balances_keep_order()
    ensures falls { BalanceFalls }
    ensures rises { BalanceRises }
{}

/// Over a closed set of cells whose heads lie below all bottoms, drains and known heads, the balances sum to at least the deep flows.
#[tactic(auto, using(crate::proofs::ExactLaws::exact_dry_law))]
pub fn dry_cells()
    ensures { DryLaw }
{}

/// Where each component is anchored or carried, a certificate over a barrier encloses every solution that the barrier encloses, on both sides.
#[tactic(auto, using(crate::proofs::Encloses::certified_bounds_enclose))]
pub fn comparison()
    ensures { Compares }
{}

/// The comparison is not empty: a step with an entry of each kind meets its premises.
#[tactic(auto, using(crate::proofs::ExampleMet::example_is_comparable))]
pub fn comparable_example()
    ensures { IsComparable example_problem example_barrier example_lows example_highs 1 example_step 3 example_heads }
{}
