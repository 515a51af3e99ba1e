//! Runs many jobs by several workers, each of which takes the next job that is left, and keeps the ends of the jobs in
//! their order.
#![tactic(auto)]

mod batch;
mod book;
mod desks;
mod jobs;
mod places;
mod queue;

pub use batch::run_batch;
pub use book::Book;
pub use jobs::Jobs;
