//! A listing: the steps are solved in order, and each is put while the next one is solved.
#![tactic(auto)]

pub mod laws;
mod putting;
pub mod solving;
pub mod steps;
pub mod text;

pub use putting::put_steps;
pub use solving::{Step, StepFlows, Stop, flows_of, zone_slice};
pub use steps::{Steps, Task};
pub use text::{ListingEnd, push_listing};
