//! A model, written as the text of a deck in MODFLOW's free format.
#![tactic(auto)]

mod areas;
mod arrays;
mod deck_text;
mod discretization;
mod entries;
mod flow;
mod lines;
mod names;
mod packages;
mod words;

pub use deck_text::{push_deck, write_deck};
pub use names::file_in_deck;
