//! The heads to which one cell of a step's problem can be raised or sunk.
#![tactic(auto)]

pub mod laws;
mod middle;
pub mod range;
pub mod relax;

pub use range::are_words;
pub use relax::{
    balance_in, head_on, lets_move, raise_to, relax_in, relax_to, sink_to, tighter_of,
};
