//! Decimal numbers of 18 digits, rounded down or up.
#![tactic(auto)]

pub mod convert;
pub mod decimal;
pub mod laws;
mod power;
pub mod rounding;
pub mod sum;
pub mod units;

pub use convert::{of_dec, of_units_dn, of_units_up};
pub use decimal::Sd;
pub use rounding::{div_dn, div_up, mul_dn, mul_up};
pub use sum::{add_dn, add_up};
pub use units::{ceil_units, floor_units};
