//! A plan's listing: the steps of two plans in one weather are solved in order, and each is put while the next one is solved.
#![tactic(auto)]

mod copies;
pub mod decks;
mod ends;
pub mod laws;
mod putting;
mod steps;

pub use decks::{PlannedDecks, read_planned};
pub use putting::put_plan_steps;
