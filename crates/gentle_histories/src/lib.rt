//! Between listed heads that hold there is a history of gentle heads that nearly solves the model: laws alone, each the contract of an empty function.
#![tactic(auto)]

pub mod laws;
