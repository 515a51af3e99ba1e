//! The hull of two problems of a time step: the problem that encloses whatever either of them encloses.
#![tactic(auto)]

mod entries;
pub mod laws;
pub mod problem;

pub use problem::{HullFault, hull};
