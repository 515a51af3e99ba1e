//! The words of the command line: what they ask for, for all six commands.
#![tactic(auto)]

mod commands;
mod numbers;
mod order;
mod orders;

pub use order::{
    BatchOrder, CheckOrder, MakeOrder, Order, PlanCheckOrder, PlanOrder, RunOrder, TextOrder,
    WordsFault,
};
pub use orders::read_order;
