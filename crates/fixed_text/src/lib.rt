//! Whole numbers and numbers in fixed point, as text.
#![tactic(auto)]

mod fixed;

pub use fixed::{push_fixed, push_number};
