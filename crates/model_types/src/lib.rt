//! A model as it was read: its grid, its properties, its stress periods and their time steps.
#![tactic(auto)]

pub mod entry;
pub mod face;
pub mod faces;
pub mod given_heads;
pub mod grid;
pub mod layers;
pub mod limits;
pub mod listed;
pub mod model;
pub mod optional;
pub mod period;
pub mod places;
pub mod shared;
pub mod sharing;
pub mod time_steps;

pub use entry::{Entry, Given};
pub use face::{Axis, Face};
pub use given_heads::{GivenHeads, Kind, kind_at};
pub use grid::{CellId, Grid};
pub use limits::{Limits, WIDE_COUNT};
pub use listed::Listed;
pub use model::FlowModel;
pub use optional::Optional;
pub use period::{Period, Stresses};
pub use places::{cell_of, place_of};
pub use shared::Shared;
pub use time_steps::{TimeStep, times};
