//! The problem of a step of a model with convertible layers, at heads that are known by bounds.
#![tactic(auto)]

pub mod laws;
mod pairs;
mod problem;

pub use pairs::pairs_at;
pub use problem::problem_at;
