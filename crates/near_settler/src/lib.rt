//! The settler of a run: plain phases of workers, and where these take long a guess, which one more settling certifies.
//! It settles by itself, or while a viewer watches the plain phases. A second settler does the same on one thread.
#![tactic(auto)]

mod alone;
mod first;
mod guessing;
mod settling;

pub use alone::SerialSettler;
pub use guessing::{Guesser, NearGuesser, TwoThreadGuesser};
pub use settling::NearSettler;
