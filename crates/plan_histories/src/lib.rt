//! Histories of two plans in one weather, and what they have in common with histories between two decks: laws alone, each the contract of
//! an empty function.
#![tactic(auto)]

pub mod laws;
