//! A time step of one deck, or of all models between two: from the heads of the step before, its problem, the settled pair, and the heads of all
//! cells, between which every solution of the exact equations lies.
#![tactic(auto)]

pub mod laws;
pub mod solved;
mod step;

pub use solved::{Solved, StepFault, barrier_by, settle_by};
pub use step::{last_step, next_step, next_step_with};
