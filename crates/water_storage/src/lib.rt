//! The bounds of the flow of stored water into a cell over a time step, for a model with convertible layers.
#![tactic(auto)]

mod falls;
pub mod laws;
mod pairs;
mod stored;
mod tops;

pub use pairs::storage_fits;
pub use stored::stored_flow;
