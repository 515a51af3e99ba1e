//! Packages whose files have a list of entries for each stress period: the trait of such a package, and one reader
//! for all of them.
#![tactic(auto)]

mod columns;
mod entries;
mod entry;
mod given;
mod header;
mod kind;
pub mod laws;
mod lists;
mod marks;
mod model;

pub use columns::Column;
pub use entries::ListKind;
pub use given::SpecifiedHeads;
pub use header::{Count, item_line};
pub use kind::ListEntry;
pub use marks::Marks;
pub use model::read_package;
