// The two decimals between which a number is known.
ghost use Rattle.std.specs.Prelude.{ℤ, ◌≡◌, ◌≤◌, ◌^◌, pos, neg_ℤ, unsigned_abs};
ghost use Rattle.decimal_input.specs.{IsDec, number, IsSignedFloor, IsSignedCeiling};
ghost use Rattle.scaled_decimal.specs.{Lower, Upper};
ghost use Rattle.model_types.specs.{gap, IsThick};
ghost use Rattle.conductance_bounds.specs.{IsBetween, span, units_at, AreThick};

use decimal_input::dec::Dec;
use decimal_input::units::{ceil_at, floor_at};
use scaled_decimal::{Sd, of_units_dn, of_units_up};

/// Two decimals between which a number is known.
#[derive(Clone, Copy)]
pub struct Span {
    pub lo: Sd,
    pub hi: Sd,
}

/// Elevations are rounded to units of 10 ^ -18.
const PLACES: u16 = 18;

/// The limit of every number of units.
const LIMIT: i128 = 1 << 126;

/// The two decimals of the thickness between two elevations.
pub fn thickness(top: Dec, bottom: Dec) -> Span
    requires top_number { IsDec top }
    requires bottom_number { IsDec bottom }
    requires thick { IsThick top bottom }
    ensures rounded { result ≡ span top bottom }
    ensures usable { AreThick result.lo result.hi }
    ensures encloses { IsBetween result.lo result.hi (gap (number top) (number bottom)) }
{
    let top = edges(top);
    let bottom = edges(bottom);
    Span {
        lo: of_units_dn(top.lo.abs_diff(bottom.hi), PLACES),
        hi: of_units_up(top.hi.abs_diff(bottom.lo), PLACES),
    }
}

// The floor and the ceiling of an elevation.
#[derive(Clone, Copy)]
struct Edge {
    lo: i128,
    hi: i128,
}

// Where one call finds a bound too large, it is the limit, since the other one is below it.
fn edges(x: Dec) -> Edge
    requires number { IsDec x }
    requires low { (z : ℤ) → IsSignedFloor z (number x) 18 → 2 ^ 126 ≤ unsigned_abs z → z ≡ neg_ℤ (pos (2 ^ 126)) }
    requires high { (z : ℤ) → IsSignedCeiling z (number x) 18 → 2 ^ 126 ≤ unsigned_abs z → z ≡ pos (2 ^ 126) }
    ensures floor { result.lo ≡ units_at Lower x 18 }
    ensures ceiling { result.hi ≡ units_at Upper x 18 }
{
    Edge {
        lo: floor_at(x, PLACES as u32).unwrap_or(-LIMIT),
        hi: ceil_at(x, PLACES as u32).unwrap_or(LIMIT),
    }
}
