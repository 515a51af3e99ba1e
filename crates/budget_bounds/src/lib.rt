//! The bounds of the volumetric budget of one time step.
#![tactic(auto)]

mod cover;
mod flows;
pub mod laws;
pub mod pair;
mod sums;
mod terms;

pub use cover::first_uncovered;
pub use pair::{Budget, TermPair};
pub use sums::{TERM_LIMIT, add_part};
pub use terms::budget;
