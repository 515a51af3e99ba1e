//! What one plan does to the heads of another, whatever the weather: laws alone, each the contract of an empty function.
#![tactic(auto)]

pub mod bounds;
pub mod exact_step;
