//! The problem of the differences of two plans' heads at a time step: what a plan does, in every weather between two decks.
#![tactic(auto)]

pub mod branches;
pub mod laws;
pub mod problem;
mod shares;

pub use branches::Ramp;
pub use problem::difference_problem;
pub use shares::acting;
