//! What single numbers of the input are tested for: signs, magnitudes, and the room between two elevations. And the tests of a
//! model's active cells after BAS6 and after LPF.
#![tactic(auto)]

mod checks;
mod magnitudes;
mod passing;
mod signs;
mod units;
mod whole;

pub use checks::check_cells;
pub use magnitudes::{is_at_least, is_at_most, is_head};
pub use passing::Check;
pub use signs::{all_positive, is_one, is_positive};
pub use units::is_thick;
pub use whole::within;
