//! The pairs of zones that share a face in a stress period of a model.
#![tactic(auto)]

pub mod pair;
mod pairs;
pub mod periods;

pub use pair::ZonePair;
pub use periods::ZonePairs;
