// A listing that was read.
use budget_bounds::Budget;
use model_types::Listed;
use step_problem::{Bound, ZoneFlow};

/// A time step of a listing: the heads of all cells of the grid, in units of 10^-9 length units, with zeros where
/// there is no flow, the budget in units of 10^-(s+9) flow units, and the flows between zones in the same units.
#[derive(Drop)]
pub struct ListedStep {
    pub heads: Listed<Bound>,
    pub budget: Budget,
    pub zones: Listed<ZoneFlow>,
}

/// The steps of a listing, in order.
pub type Listing = Listed<ListedStep>;
