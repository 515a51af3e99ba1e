//! Whether all heads between the listed heads of a step are gentle, for a model with convertible layers, or the first cell where they aren't.
#![tactic(auto)]

mod bottom;
mod branch;
mod compare;
pub mod laws;
mod walk;

pub use walk::first_steep;
