//! When the exact equations of a time step have a solution, and when they have one alone.
//!
//! Nothing of this crate runs: its public functions are laws, each the contract of an empty function.
#![tactic(auto)]

pub mod held;
pub mod loose;
pub mod worked;
