//! The listing of a plan as text, written and read: the heads without a plan and with it, their differences, and where the plan's water comes from.
#![tactic(auto)]

mod last_lines;
pub mod laws;
pub mod listing;
mod listing_reader;
mod step_reader;
mod writer;

pub use last_lines::{
    PlanPlace, write_plan_no_bound, write_plan_not_certified, write_plan_unfinished,
};
pub use listing::{ListedPlanStep, PlanCell, PlanListing};
pub use listing_reader::read_plan_listing;
pub use writer::{write_first_plan, write_plan_step};
