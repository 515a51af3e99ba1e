// A stress period and its stresses.
ghost use Rattle.std.specs.Prelude.{◌≡◌};
ghost use Rattle.model_types.specs.{no_stresses};

use crate::entry::{Entry, Given};
use crate::shared::Shared;
use decimal_input::dec::Dec;

/// A stress period: its length, its time steps, and its stresses.
#[derive(Drop)]
pub struct Period {
    pub perlen: Dec,
    pub nstp: u32,
    pub tsmult: Dec,
    pub steady: bool,
    pub stresses: Stresses,
}

/// The stresses of a period. A list or array of a package that the period reuses is the list or array of the
/// period before; it is in memory once. Arrays are by row, then column, and empty where the model lacks the
/// package; `irch` and `ievt` also where the option isn't 2.
#[derive(Drop)]
pub struct Stresses {
    pub wells: Shared<Entry>,
    pub rivers: Shared<Entry>,
    pub drains: Shared<Entry>,
    pub generals: Shared<Entry>,
    pub given: Shared<Given>,
    pub recharge: Shared<Dec>,
    pub irch: Shared<i64>,
    pub surf: Shared<Dec>,
    pub evtr: Shared<Dec>,
    pub exdp: Shared<Dec>,
    pub ievt: Shared<i64>,
}

impl Stresses {
    /// No stresses: each list and each array is empty.
    pub fn none() -> Stresses
        ensures { result ≡ no_stresses }
    {
        Stresses {
            wells: Shared::empty(),
            rivers: Shared::empty(),
            drains: Shared::empty(),
            generals: Shared::empty(),
            given: Shared::empty(),
            recharge: Shared::empty(),
            irch: Shared::empty(),
            surf: Shared::empty(),
            evtr: Shared::empty(),
            exdp: Shared::empty(),
            ievt: Shared::empty(),
        }
    }
}
