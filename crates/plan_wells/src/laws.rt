// Models with a plan's wells. Each law is the contract of an empty function.
ghost use Rattle.plan_wells.specs.{AlikeHaveOnePlan, PlainAreFew, PlannedAreAlike, PlannedAreValid, PlannedLieBetween};

/// A valid model with a plan's wells is valid, where no stress period has too many; which it never has where both were read by plain limits.
pub fn planned_are_valid()
    ensures valid { PlannedAreValid }
    ensures plain { PlainAreFew }
{}

/// Models that are alike are alike with the same plan's wells, and a file gives one plan for both.
pub fn planned_are_alike()
    ensures alike { PlannedAreAlike }
    ensures one_plan { AlikeHaveOnePlan }
{}

/// A model between two lies between them with the same plan's wells in all three.
pub fn planned_lie_between()
    ensures { PlannedLieBetween }
{}
