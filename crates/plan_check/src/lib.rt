//! The check of a plan's listing, whoever wrote it: step by step from its own heads and differences, without threads and without rounds.
#![tactic(auto)]

mod before;
mod differences;
mod fault;
mod flows;
pub mod laws;
mod listing;
mod step;
pub mod verdict;

pub use listing::check_plan_listing;
pub use verdict::PlanListingVerdict;
