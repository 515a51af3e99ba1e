//! The check of a listing, whoever wrote it: step by step from its own heads, without threads and without rounds.
#![tactic(auto)]

mod constants;
mod flows;
mod heads;
pub mod laws;
mod listing;
mod posed;
mod step;
mod terms;
mod variables;
pub mod verdict;

pub use constants::unreached_side;
pub use flows::first_narrow;
pub use heads::check_heads;
pub use listing::{CheckFault, check_listing};
pub use variables::{bounds_of, test_heads};
pub use verdict::ListingVerdict;
