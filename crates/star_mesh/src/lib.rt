//! Solves sparse symmetric systems in whole numbers by elimination, after nested dissection. Each elimination is a star-mesh
//! transform of weights and grounds: only numbers that are not negative are added, so that no leading digit is lost. Nothing is
//! promised of a solution; code that uses one must test it.
#![tactic(auto)]

mod dissection;
mod elimination;
mod factor;
mod lists;
mod pattern;
mod search;
mod substitution;
mod tree;

pub use factor::Factor;
pub use pattern::Pattern;
