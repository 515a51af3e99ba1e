//! What conductances do to the drawdown of a single well at its own cell: laws alone, each the contract of an empty function.
#![tactic(auto)]

pub mod laws;
