// The result of the check of a plan's listing.
use model_types::TimeStep;
use plan_chain::PlanPart;
use plan_listing::PlanPlace;
use step_problem::NoBound;

/// The result of the check of a plan's listing: every step is certified; or all steps before this time step are certified, and this place is the first
/// that fails; or this part of the step has this refusal.
#[derive(Clone, Copy)]
pub enum PlanListingVerdict {
    Certified,
    Fails(TimeStep, PlanPlace),
    Refused(TimeStep, PlanPart, NoBound),
}
