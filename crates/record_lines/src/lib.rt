//! A text as lines and words: a cursor that moves forward and copies nothing, and free lists, whose
//! values may continue on later lines. No call takes memory.
#![tactic(auto)]

mod cuts;
mod free;
mod lines;

pub use cuts::{cut_line, is_comment};
pub use free::{Free, FreeFault};
pub use lines::{EndOfFile, Line, Lines, Words, begins_with, is_word};
