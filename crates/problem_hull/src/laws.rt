// Laws of hulls: the contract of an empty function.
ghost use Rattle.problem_hull.specs.{HullOfOne, HullExcludesRefusal};

/// The hull of a problem and itself is that problem. Two problems whose hull is a problem have no refusal.
pub fn one_hull_or_refusal()
    ensures itself { HullOfOne }
    ensures excludes { HullExcludesRefusal }
{}
