//! The heads of a problem's cells as words that threads raise and sink by single atomic steps.
#![tactic(auto)]

mod coding;
mod edges;
mod ends;
mod exchanges;
mod known;
mod loads;
mod seats;
mod table;

pub use edges::edge_words;
pub use known::{Facts, Heads, Known};
pub use table::{HeadSeat, HeadTable};
