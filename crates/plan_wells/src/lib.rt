//! The wells that a plan adds to a model: read from a file of the package WEL, and added to those of a deck period by period.
#![tactic(auto)]

pub mod laws;
mod plan;
mod planned;

pub use plan::{Plan, read_plan};
pub use planned::with_plan;
