//! Time steps of two plans in one weather: the heads without a plan's wells, the heads with them, and their differences, each settled in turn,
//! between which every pair of histories of the two plans lies.
#![tactic(auto)]

mod differences;
pub mod laws;
pub mod step;
mod walk;

pub use differences::{by_cell, next_differences};
pub use step::{PlanFault, PlanHeads, PlanPart, PlanSolved, PlanTask, next_plan_step};
pub use walk::{PlanEnd, PlanStop, PlanWalk, start_heads};
