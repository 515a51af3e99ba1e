// How flows over branches follow from heads, where the saturated thickness does too.
ghost use Rattle.pair_flows.specs.{LowerHeadLaw, GentleLaw, UpperHeadLaw, GentleOrderLaw, DownwardLaw, UpwardLaw, HasTwoSolutions};

/// Between cells of a layer: the flow doesn't grow as the lower head rises, where it falls gently, and doesn't fall as the upper head rises.
#[tactic(auto, using(crate::proofs::Horizontal::lower_head_law, crate::proofs::Horizontal::gentle_law, crate::proofs::Horizontal::upper_head_law))]
pub fn horizontal_flows()
    ensures lower_head { LowerHeadLaw }
    ensures gentle { GentleLaw }
    ensures upper_head { UpperHeadLaw }
{}

/// Both heads at once.
#[tactic(auto, using(crate::proofs::Horizontal::gentle_order_law))]
pub fn gentle_flows_keep_order()
    ensures { GentleOrderLaw }
{}

/// Between a cell and the full cell below it.
pub fn vertical_flows_keep_order()
    ensures downward { DownwardLaw }
    ensures upward { UpwardLaw }
{}

/// The pumped cell has two wet solutions, of which one alone is gentle.
#[tactic(auto, using(crate::proofs::Horizontal::pumped_cell_has_two))]
pub fn pumped_cell_has_two()
    ensures { HasTwoSolutions }
{}
