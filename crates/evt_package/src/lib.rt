//! The evapotranspiration package: for each column of layers in each stress period a surface, a greatest rate and an
//! extinction depth, and which cell evaporates.
#![tactic(auto)]

mod chosen;
mod columns;
mod read;

pub use read::read_evt;
