//! A made model: its files, drawn from a seed.
#![tactic(auto)]

mod grids;
mod making;
mod properties;

pub use making::{NAME, make};
