//! Signs of the balances of a model with convertible layers enclose its histories of gentle heads: laws alone, each the contract of an
//! empty function.
#![tactic(auto)]

pub mod laws;
