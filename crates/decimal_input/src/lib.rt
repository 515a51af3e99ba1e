//! Numbers of the input, exactly: what a word names, products, and whole units of a number.
#![tactic(auto)]

mod canonical;
mod coefficient;
pub mod dec;
pub mod laws;
pub mod product;
pub mod read;
pub mod units;
pub mod word;
