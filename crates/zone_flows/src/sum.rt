// The sums of the flows between two zones.
use budget_bounds::TermPair;

/// What flows from the lower of two zones to the higher, and what flows back, each summed up to 2^126.
#[derive(Clone, Copy)]
pub(crate) struct ZoneSum {
    pub into: TermPair,
    pub out: TermPair,
}
