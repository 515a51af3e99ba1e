//! Workers that raise and sink the heads of a shared table, one cell at a time.
#![tactic(auto)]

mod workers;

pub use workers::{own_turns, turn, work};
