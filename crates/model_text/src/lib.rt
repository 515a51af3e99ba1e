//! A model as text: the files of a deck, which are read as the model itself.
//!
//! Nothing of this crate runs: its public functions are laws, each the contract of an empty function.
#![tactic(auto)]

pub mod laws;
