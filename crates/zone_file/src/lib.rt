//! The zones of a model's cells, from a file of integer arrays.
#![tactic(auto)]

mod zones;

pub use zones::{read_zones, zone_numbers};
