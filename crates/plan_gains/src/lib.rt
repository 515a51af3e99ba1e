//! What each term of the budget gives more under a plan in a time step, by the problem of the differences of two plans' heads.
#![tactic(auto)]

mod sums;
mod terms;

pub use terms::sources;
