//! Decks, the zones of their cells and a listing of them in one text: the text is read, and compared with the text that such
//! decks, zones and steps have.
#![tactic(auto)]

mod cutting;
mod due;
mod folder;
pub mod laws;
mod listed;
mod part;
mod parts;
mod places;
mod rest;
mod text_file;

pub use listed::read_steps;
pub use part::{Part, Parts};
pub use parts::read_parts;
pub use places::unlike;
pub use rest::Rest;
pub use text_file::TextFile;
