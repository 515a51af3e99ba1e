//! The problem of a time step of one deck, or of two decks at once: the hull of their problems, which encloses
//! every exact step between theirs.
#![tactic(auto)]

pub mod decks;
pub mod kept;
pub mod laws;
mod problem;
mod start;

pub use decks::Decks;
pub use kept::RunTables;
pub use problem::{DeckProblem, DeckTables, problem_for};
pub use start::start_heads_for;
