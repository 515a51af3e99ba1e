// The result of the check of a listing.
use model_types::TimeStep;
use step_problem::{NoBound, Place};

/// The result of the check of a listing: every step is certified; or all steps before this time step are certified, and at this cell not all heads between
/// the listed ones are gentle, or this place is the first that fails, or the step has this refusal.
#[derive(Clone, Copy)]
pub enum GentleVerdict {
    Certified,
    Steep(TimeStep, u32),
    Fails(TimeStep, Place),
    Refused(TimeStep, NoBound),
}
