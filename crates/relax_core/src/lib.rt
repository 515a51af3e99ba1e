//! Heads that several actors share, changed by single events: what every event keeps, even if what an actor has seen is out of date.
#![tactic(auto)]

pub mod events;
pub mod laws;
pub mod range;
pub mod state;

pub use events::Event;
pub use state::{State, apply};
