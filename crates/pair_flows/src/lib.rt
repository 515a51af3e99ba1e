//! What the comparison of heads rests on where flows between cells aren't linear in their heads: laws alone, each the
//! contract of an empty function.
#![tactic(auto)]

pub mod branches;
pub mod comparison;
