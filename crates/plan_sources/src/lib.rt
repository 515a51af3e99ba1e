//! Where a plan's water comes from: what each term of the budget gives more under a plan in a time step, and what flows more between zones.
#![tactic(auto)]

pub mod flows;
pub mod laws;

pub use flows::{PlanFlows, Sources, plan_flows};
