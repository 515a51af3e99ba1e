//! The problem of a time step: the whole numbers that enclose the exact equations of a model's step.
#![tactic(auto)]

pub mod branches;
pub mod builder;
pub mod cell;
pub mod chosen;
pub mod entries;
pub mod evaporation;
pub mod faces;
pub mod fault;
pub mod given;
pub mod heads;
pub mod index;
pub mod input;
pub mod laws;
pub mod local;
pub mod periods;
pub mod recharge;
pub mod start;
pub mod step;
pub mod storages;
pub mod stored;
pub mod tables;

pub use builder::{build, build_over, build_with};
pub use index::PeriodTables;
pub use start::start_heads;
pub use step::StepTables;
pub use tables::{FacePairs, Tables};
