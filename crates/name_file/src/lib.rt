//! The name file: which package of a model has which file.
#![tactic(auto)]

mod kinds;
mod names;
mod package;
mod reading;

pub use kinds::package_of;
pub use names::Names;
pub use package::Package;
pub use reading::read_names;
