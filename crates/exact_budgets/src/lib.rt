//! The volumetric budget of an exact solution: what flows in flows out, so each net term lies in minus the sum of the
//! others.
//!
//! Nothing of this crate runs: its public functions are laws, each the contract of an empty function.
#![tactic(auto)]

pub mod laws;
