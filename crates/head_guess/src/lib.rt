//! A guess of the settled heads of a step's problem, in whole numbers. Only running time depends on it.
#![tactic(auto)]

mod beside;
mod branch;
mod changes;
mod descend;
mod eliminable;
mod extent;
mod gallop;
mod guess;
mod half;
mod linear;
mod links;
mod lower;
mod marks;
mod newton;
mod nodes;
mod one_side;
mod pair;
mod raise;
mod ramp;
mod rest;
mod search;
mod share;
mod shares;
mod sink;
mod slopes;
mod spot;
mod steps;
mod system;
mod work;

pub use beside::guess_in_two_threads;
pub use guess::{Guess, guess_heads};
pub use pair::{Failed, guess_pair};
pub use steps::Kept;
