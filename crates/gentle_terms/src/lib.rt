//! The volumetric budget of a step of a model with convertible layers, and how that of a history lies between those at listed heads.
#![tactic(auto)]

pub mod laws;
