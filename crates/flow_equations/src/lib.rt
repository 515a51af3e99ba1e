//! The exact equations of a model's time steps, and what it means that a history of heads solves them. Nothing of
//! this crate runs in the program: its public functions are laws, each the contract of an empty function.
#![tactic(auto)]

pub mod branches;
pub mod steps;
pub mod stresses;
pub mod times;
pub mod worked;
