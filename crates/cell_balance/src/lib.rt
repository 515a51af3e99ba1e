//! The exact equations of one time step, and the laws that relate their solutions to bounds. No call of this crate
//! runs in the program: its public functions are laws, each the contract of an empty function.
#![tactic(auto)]

pub mod laws;
