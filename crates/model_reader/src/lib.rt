//! A model from its files, in reading order.
#![tactic(auto)]

mod basics;
mod model;
mod stresses;

pub use basics::{bas_in, check_model, dis_in, open_file};
pub use model::{file_needed, read_model, read_name_file, read_named_model};
pub use stresses::with_stresses;
