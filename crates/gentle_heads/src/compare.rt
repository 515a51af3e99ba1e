// Elevations of the input beside whole heads in units of 10^-9.
ghost use Rattle.std.specs.Prelude.{◌↔◌, ◌^◌, IsTrue};
ghost use Rattle.decimal_input.specs.{IsDec, number};
ghost use Rattle.decimal_input.specs.Fractions.{AtMost};
ghost use Rattle.cell_balance.specs.{share, IsBelow};
ghost use Rattle.step_problem.specs.{IsMagnitudeAtMost};

use decimal_input::dec::Dec;
use decimal_input::units::{ceil_at, floor_at};

/// Whether an elevation is at or below a head.
pub(crate) fn is_at_or_below(elevation: Dec, head: i128) -> bool
    requires elevation { IsDec elevation }
    requires head { IsMagnitudeAtMost head (2 ^ 100) }
    ensures { IsTrue result ↔ AtMost (number elevation) (share (10 ^ 9) head) }
{
    match ceil_at(elevation, 9) {
        Some(ceiling) => ceiling <= head,
        None => elevation.neg,
    }
}

/// Whether an elevation is below a head.
pub(crate) fn is_below(elevation: Dec, head: i128) -> bool
    requires elevation { IsDec elevation }
    requires head { IsMagnitudeAtMost head (2 ^ 100) }
    ensures { IsTrue result ↔ IsBelow (number elevation) (share (10 ^ 9) head) }
{
    match floor_at(elevation, 9) {
        Some(floor) => floor < head,
        None => elevation.neg,
    }
}
