//! The bounds of conductances of a model with convertible layers, at heads that are known by bounds.
#![tactic(auto)]

mod edges;
pub mod faces;
pub mod laws;
pub mod spans;

pub use faces::pair_at;
