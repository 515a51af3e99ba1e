//! The flows between zones at a step of a model with convertible layers, for all heads between the listed ones.
#![tactic(auto)]

mod flows;
pub mod laws;

pub use flows::step_flows;
