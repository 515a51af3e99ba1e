// The bounds of flows.

/// The least and the greatest value of a flow, in units of 10^-(s+9) flow units.
#[derive(Clone, Copy)]
pub struct TermPair {
    pub lo: i128,
    pub hi: i128,
}

/// The terms of a step's budget, in the order of the listing: what flows into the variable cells, and what flows
/// out of them, as a magnitude.
#[derive(Clone, Copy)]
pub struct Budget {
    pub into: [TermPair; 8],
    pub out: [TermPair; 8],
}
