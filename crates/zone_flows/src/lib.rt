//! The bounds of the flows between zones in one time step.
#![tactic(auto)]

mod faces;
pub mod flows;
mod sum;
mod table;
mod walk;

pub use flows::zone_flows;
