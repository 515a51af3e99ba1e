//! The engine: does what the program's words ask for, from a folder's files to the bytes that are put.
#![tactic(auto)]

mod asked_files;
mod batch_reading;
mod batching;
mod checking;
mod commands;
mod convertible_checking;
mod convertible_verdict;
mod ending;
mod job;
pub mod laws;
mod listing;
mod making;
mod plan_checking;
pub mod plan_parts;
mod plan_verdict;
mod planning;
mod reading;
mod running;
mod tasks;
mod text_check;
mod two_decks;
mod verdict;
mod viewing;
mod words;
mod writing;
pub mod zoned;

pub use asked_files::{AskedFiles, files_asked};
pub use commands::{run, serve};
pub use run_puts::Status;
pub use running::run_one;
