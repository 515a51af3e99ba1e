//! Settlers of the problem of a time step.
#![tactic(auto)]

mod leaving;
mod open;
mod phases;
mod plain;
mod step_settler;
mod sweep;
mod thread_settler;
mod trials;
mod viewer;
mod watch_by;
mod watched;
mod watching;

pub use phases::Plan;
pub use plain::PlainSettler;
pub use step_settler::{StepSettler, StepViewer};
pub use thread_settler::{ClosureSettler, ThreadSettler, settle};
pub use trials::settle_near;
pub use viewer::{NoViewer, Viewer};
pub use watch_by::WatchedClosureSettler;
pub use watched::{WatchSettler, settle_watched};
