//! The models that lie between two others, and the exact steps that lie between theirs; whether two models are alike, so that
//! models lie between them, and where they differ first.
#![tactic(auto)]

mod cells;
mod difference;
pub mod laws;
mod lists;
mod once;
mod periods;

pub use difference::{Difference, first_difference};
pub use laws::shared_packages_are_alike;
