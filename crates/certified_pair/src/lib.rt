//! The pair of a step in the time of a few linear solves: guessed heads that are tested to be a certificate, and where none are found the pair of a settler.
#![tactic(auto)]

mod guesser;
mod pair;
mod quick;
mod test;

pub use guesser::{BalancedGuesser, PairGuesser};
pub use pair::certified_pair;
pub use quick::QuickPairs;
pub use test::is_certified;
