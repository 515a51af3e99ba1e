// How much of a conductance acts between two heads.
ghost use Rattle.std.specs.Prelude.{◌≡◌, ◌<◌};
ghost use Rattle.plan_step.specs.{acting, divided};

use step_problem::Side;

// a / b, rounded down on the low side and up on the high side.
fn divided(side: Side, a: u128, b: u64) -> u128
    requires some { 0 < b }
    ensures { result ≡ divided side a b }
{
    match side {
        Side::Low => a / b as u128,
        Side::High => a.div_ceil(b as u128),
    }
}

/// The part of a conductance that acts between two heads, of which the share of the way between them that lies above a foot
/// counts: all of it where both heads lie above the foot, none where both lie below. Rounded down on the low side and up on the high side.
#[tactic(auto, using(crate::proofs::Rounding::divided_within), unfolding(crate::specs::Branches::acting_between))]
pub fn acting(side: Side, conductance: u64, foot: i64, x: i64, y: i64) -> u64
    ensures { result ≡ acting side conductance foot x y }
{
    let low = x.min(y);
    let high = x.max(y);
    if foot <= low {
        conductance
    } else if high <= foot {
        0
    } else {
        let above = conductance as u128 * high.abs_diff(foot) as u128;
        divided(side, above, high.abs_diff(low)) as u64
    }
}
