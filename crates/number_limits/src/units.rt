// The room between two elevations.
ghost use Rattle.std.specs.Prelude.{◌≡◌, ◌<◌, ◌^◌, IfSome, unsigned_abs, IsTrue};
ghost use Rattle.decimal_input.specs.{IsDec};
ghost use Rattle.number_limits.specs.{has_room, is_thick};
ghost use Rattle.model_types.specs.{IsThick};

use decimal_input::dec::Dec;
use decimal_input::units::{ceil_at, floor_at};

fn has_room(upper: Option<i128>, lower: Option<i128>) -> bool
    requires upper { IfSome upper (λ z. unsigned_abs z < 2 ^ 126) }
    requires lower { IfSome lower (λ z. unsigned_abs z < 2 ^ 126) }
    ensures { result ≡ has_room upper lower }
{
    match (upper, lower) {
        (Some(f), Some(c)) => c + 1_000_000 <= f,
        _ => false,
    }
}

/// Whether there is room between two elevations: at least 10 ^ -12 length units, from the floor of the upper one
/// and the ceiling of the lower one in units of 10 ^ -18, each below 2 ^ 126 in magnitude.
#[tactic(auto, using(crate::proofs::FloorLemmas::thick_of), unfolding(crate::specs::Room::is_thick))]
pub fn is_thick(top: Dec, bottom: Dec) -> bool
    requires top { IsDec top }
    requires bottom { IsDec bottom }
    ensures value { result ≡ is_thick top bottom }
    ensures means { IsTrue result → IsThick top bottom }
{
    let upper = floor_at(top, 18);
    let lower = ceil_at(bottom, 18);
    has_room(upper, lower)
}
