// A law of raise and sink values. It is the contract of an empty function.
ghost use Rattle.cell_relax.specs.{RelaxedKeepOrder};

/// If no head is lower, at the cell and at the other ends of its links, then neither the raise value nor the
/// sink value is lower.
#[tactic(auto, using(crate::proofs::Orders::relaxed_keep_order))]
pub fn values_keep_order()
    ensures { RelaxedKeepOrder }
{}
