// Laws of floors and ceilings: they enclose every solution, and a problem has one barrier or one refusal. Each is the contract of an empty function.
ghost use Rattle.cell_balance.specs.{example_problem, example_step, example_heads};
ghost use Rattle.barrier_vector.specs.{IsSolution, FloorsEnclose, CeilingsEnclose, FloorsHold, BarrierIsOne, BarrierExcludesRefusal, RefusalIsOne};
ghost use Rattle.barrier_vector.specs.{CutBarrierIsOne, BarrierIsCut, CutBarrierExcludesRefusal, CutRefusalIsOne, ClampedFits};

/// No solution lies below a floor, in an anchored or in a carried component.
#[tactic(auto, using(crate::proofs::Floors::floors_enclose))]
pub fn floors_enclose()
    ensures { FloorsEnclose }
{}

/// No solution lies above a ceiling.
#[tactic(auto, using(crate::proofs::Floors::ceilings_enclose))]
pub fn ceilings_enclose()
    ensures { CeilingsEnclose }
{}

/// A problem whose cells all have floors is held below: each component is anchored or carried.
#[tactic(auto, using(crate::proofs::Floors::floors_hold))]
pub fn floors_hold()
    ensures { FloorsHold }
{}

/// The laws are not empty: a step with an entry of each kind has a solution, over the denominator 3.
pub fn solved_example()
    ensures { IsSolution example_problem 1 example_step 3 example_heads }
{}

/// A problem has at most one barrier.
#[tactic(auto, using(crate::proofs::Cutting::barrier_is_one))]
pub fn one_barrier()
    ensures { BarrierIsOne }
{}

/// A problem with a barrier has no refusal.
pub fn no_barrier_beside_a_refusal()
    ensures { BarrierExcludesRefusal }
{}

/// A problem has at most one refusal.
pub fn one_refusal()
    ensures { RefusalIsOne }
{}

/// A problem has at most one cut barrier.
#[tactic(auto, using(crate::proofs::Cutting::cut_barrier_is_one))]
pub fn one_cut_barrier()
    ensures { CutBarrierIsOne }
{}

/// A problem's barrier is its cut barrier.
#[tactic(auto, using(crate::proofs::Cutting::barrier_is_cut))]
pub fn barrier_is_cut()
    ensures { BarrierIsCut }
{}

/// A problem with a cut barrier isn't refused for lack of a bound.
pub fn no_cut_barrier_beside_a_refusal()
    ensures { CutBarrierExcludesRefusal }
{}

/// A problem has at most one refusal of its cut barrier.
#[tactic(auto, using(crate::proofs::Cutting::cut_refusal_is_one))]
pub fn one_cut_refusal()
    ensures { CutRefusalIsOne }
{}

/// Clamped floors and ceilings are a barrier of heads, and heads stay as they are.
#[tactic(auto, using(crate::proofs::Outlining::clamped_fits))]
pub fn clamped_fits()
    ensures { ClampedFits }
{}
