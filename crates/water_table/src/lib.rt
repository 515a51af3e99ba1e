//! Models with a water table: what LPF reads of convertible layers, beside a `FlowModel`, and the finite-difference
//! equations at heads that may lie below the tops of their cells. Definitions, and laws that are the contracts of empty functions.
#![tactic(auto)]

pub mod convertible_layers;
pub mod laws;
pub mod worked;

pub use convertible_layers::ConvertibleLayers;
