//! Packages whose files have arrays of one layer for each stress period, each read anew or reused: the trait of such a
//! package, and one reader for all of them.
#![tactic(auto)]

mod area;
mod flags;
mod layers;
mod package;
mod periods;
mod read;

pub use area::Area;
pub use layers::cell_refused;
pub use package::ArrayPackage;
pub use read::{ArrayFile, read_arrays};
