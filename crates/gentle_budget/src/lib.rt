//! The volumetric budget of a step of a model with convertible layers at its listed heads, in whole numbers.
#![tactic(auto)]

mod budget;
mod join;
pub mod laws;
mod side;
mod stored;

pub use budget::step_budget;
