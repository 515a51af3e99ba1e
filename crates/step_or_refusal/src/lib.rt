//! Each time step of a valid model has heads or a refusal, and so each model has a whole listing or a first refusal.
//!
//! Nothing of this crate runs: its public functions are laws, each the contract of an empty function.
#![tactic(auto)]

pub mod laws;
