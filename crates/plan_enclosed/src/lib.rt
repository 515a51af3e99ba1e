//! The sources of a plan enclose what each term of the budget gives more under it, whatever the weather. A law alone, the contract of an empty function.
#![tactic(auto)]

pub mod laws;
