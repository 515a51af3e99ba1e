//! Solves sparse symmetric systems in whole numbers: conjugate gradients, preconditioned by multigrid over
//! aggregates. Nothing is promised of a solution; code that uses one must test it.
#![tactic(auto)]

mod aggregates;
mod budget;
mod coarsen;
mod gradients;
mod levels;
mod matrix;
pub mod numbers;
pub mod scaled;
mod smoother;

pub use budget::Budget;
pub use levels::Levels;
pub use matrix::Matrix;
