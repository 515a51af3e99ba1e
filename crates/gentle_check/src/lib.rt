//! The signs of the balances of a step of a model with convertible layers, at listed heads.
#![tactic(auto)]

pub mod laws;
