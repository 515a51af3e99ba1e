// A plan's listing that was read.
use model_types::{Listed, TimeStep};
use plan_sources::PlanFlows;
use step_problem::Bound;

/// The three pairs of a cell: its heads without the plan, its heads with it, and their difference, base less planned.
#[derive(Clone, Copy)]
pub struct PlanCell {
    pub base: Bound,
    pub planned: Bound,
    pub difference: Bound,
}

/// A time step of a plan's listing: of all cells of the grid the heads without the plan, those with it, and their differences, in units of 10^-9 length
/// units, with zeros where there is no flow; and what flows more under the plan.
#[derive(Drop)]
pub struct ListedPlanStep {
    pub at: TimeStep,
    pub base: Listed<Bound>,
    pub planned: Listed<Bound>,
    pub differences: Listed<Bound>,
    pub flows: PlanFlows,
}

/// The steps of a plan's listing, in order.
pub type PlanListing = Listed<ListedPlanStep>;
