// The result of the check of a listing.
use model_types::TimeStep;
use step_problem::{NoBound, Place};

/// The result of the check of a listing: every step is certified; or all steps before this time step are certified, and
/// this place is the first that fails; or the problem, barrier, budget or flows between zones of this step have this refusal.
#[derive(Clone, Copy)]
pub enum ListingVerdict {
    Certified,
    Fails(TimeStep, Place),
    Refused(TimeStep, NoBound),
}
