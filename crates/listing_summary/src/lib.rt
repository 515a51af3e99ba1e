//! The summary of a listing: its steps are solved one after another and counted; none of them is put.
#![tactic(auto)]

mod summary;
mod text;
mod walking;

pub use summary::Summary;
pub use text::write_summary;
pub use walking::summarize;
