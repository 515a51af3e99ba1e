// Magnitudes of numbers.
ghost use Rattle.std.specs.Prelude.{◌≡◌, ◌↔◌, IsTrue, ◌≤◌};
ghost use Rattle.decimal_input.specs.{IsDec, size};
ghost use Rattle.model_types.specs.{IsHeadNumber};
ghost use Rattle.number_limits.specs.{is_at_most, is_at_least, is_head};

use decimal_input::dec::Dec;
use decimal_input::units::units_of;

/// Whether the magnitude of a number is at most this.
#[tactic(auto, using(crate::proofs::MagnitudeLemmas::of_ceiling, crate::proofs::MagnitudeLemmas::of_no_ceiling))]
pub fn is_at_most(limit: u32, value: Dec) -> bool
    requires canonical { IsDec value }
    ensures value { result ≡ is_at_most limit (size value) }
{
    match units_of(value.digits, value.exp, 0, true) {
        Some(units) => units <= limit as u128,
        None => false,
    }
}

/// Whether the magnitude of a number is at least 10 ^ -places.
#[tactic(auto, using(crate::proofs::MagnitudeLemmas::of_floor, crate::proofs::MagnitudeLemmas::of_no_floor))]
pub fn is_at_least(places: u32, value: Dec) -> bool
    requires canonical { IsDec value }
    ensures value { result ≡ is_at_least places (size value) }
{
    match units_of(value.digits, value.exp, places, false) {
        Some(units) => units >= 1,
        None => true,
    }
}

/// Whether a number may be a head or an elevation, from -4000000000 to 4000000000 length units.
#[tactic(auto, using(crate::proofs::HeadLemmas::head_of, crate::proofs::HeadLemmas::head_is))]
pub fn is_head(value: Dec) -> bool
    requires canonical { IsDec value }
    ensures value { result ≡ is_head value }
    ensures means { IsTrue result ↔ IsHeadNumber value }
{
    is_at_most(4_000_000_000, value)
}
