//! The model of a run that ends Ok has a history of heads that solves its exact equations, and one alone.
//!
//! Nothing of this crate runs: its public functions are laws, each the contract of an empty function.
#![tactic(auto)]

pub mod laws;
pub mod runs;
