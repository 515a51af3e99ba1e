//! How a run ends, and the pieces that it puts to a sink before, for any pieces; and how a batch ends whose jobs ran.
#![tactic(auto)]

mod job_end;
mod puts;

pub use job_end::JobEnd;
pub use puts::{Status, put_ends, put_last, put_line, put_memory, put_piece};
