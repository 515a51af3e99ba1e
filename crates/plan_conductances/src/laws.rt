// The drawdown at a single well, where conductances are known within ranges alone.
ghost use Rattle.plan_conductances.specs.{ConductancesGrow, DrawdownFalls, IsMetByExample, WellLiesBetween};

/// The drawdown of a single well at its own cell falls as any conductance grows.
pub fn drawdown_falls()
    ensures { DrawdownFalls }
{}

/// So in whatever weather what a plan's well does to its own cell lies between the drawdown where all conducts more and that where all conducts less.
pub fn well_lies_between()
    ensures { WellLiesBetween }
{}

/// Each conductance between two cells grows with HK.
pub fn conductances_grow()
    ensures { ConductancesGrow }
{}

/// The laws are not empty: a well at one of two cells, and a river that it makes dry, meet their premises.
pub fn worked_example()
    ensures { IsMetByExample }
{}
