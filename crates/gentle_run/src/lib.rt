//! The check of a listing of a model with convertible layers, step by step.
#![tactic(auto)]

mod kept;
pub mod laws;
mod listing;
mod step;
pub mod verdict;

pub use listing::check_listing;
pub use verdict::GentleVerdict;
