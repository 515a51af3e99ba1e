//! The package of given heads: lists of cells whose heads are given at the start and at the end of a stress period.
#![tactic(auto)]

mod read;

pub use read::read_chd;
