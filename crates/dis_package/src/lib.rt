//! The discretization: the size of the grid, its widths and elevations, and the stress periods.
#![tactic(auto)]

mod bottoms;
mod frame;
mod grid;
mod periods;

pub use bottoms::Bottoms;
pub use frame::{Frame, Size};
pub use grid::read_dis;
pub use periods::Time;
