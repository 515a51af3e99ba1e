//! The list of a batch: the names of the name files of its models.
#![tactic(auto)]

mod reading;

pub use reading::read_list;
