// Bounds of the difference of two plans' heads.
ghost use Rattle.plan_difference.specs.{DifferencesLieAbove, DifferencesLieBelow, RampsShare};

/// Differences at which no cell's greatest balance is above 0 lie nowhere below the base plan's heads less the other plan's, and
/// those at which no cell's least balance is below 0 nowhere above them, in every weather that is the same in both plans.
pub fn differences_hold()
    ensures below { DifferencesLieBelow }
    ensures above { DifferencesLieAbove }
{}

/// What a ramp takes at one head more than at another is the difference of the heads over a conductance from 0 to its own.
pub fn ramps_share()
    ensures { RampsShare }
{}
