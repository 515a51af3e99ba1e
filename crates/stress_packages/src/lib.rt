//! The packages of wells, rivers, drains and general heads, with lists of entries for each stress period, and of recharge.
#![tactic(auto)]

mod read;
mod recharge;

pub use read::{read_drn, read_ghb, read_riv, read_wel};
pub use recharge::read_rch;
