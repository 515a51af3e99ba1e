// Laws that the layers above use. Each is the contract of an empty function.
ghost use Rattle.step_problem.specs.{lower_balance, upper_balance, LowerShifts, UpperShifts, LeavingSettles, FallsInOwnHead, RisesInOtherHeads};
ghost use Rattle.step_problem.specs.{RoundsKeepOrder, SettledPairExists, SettledPairIsOne, SettledPairCertifies};

/// A balance falls weakly in its own head.
#[tactic(auto, using(crate::proofs::Falls::balance_falls))]
pub fn balances_fall()
    ensures lower { FallsInOwnHead lower_balance }
    ensures upper { FallsInOwnHead upper_balance }
{}

/// A balance rises weakly in the head at the other end of each link.
#[tactic(auto, using(crate::proofs::Falls::balance_rises))]
pub fn balances_rise()
    ensures lower { RisesInOtherHeads lower_balance }
    ensures upper { RisesInOtherHeads upper_balance }
{}

/// A plain round never loosens a head, and keeps the order of tightness.
pub fn rounds_keep_order()
    ensures { RoundsKeepOrder }
{}

/// A problem and a barrier have exactly one settled pair.
pub fn settled_pair()
    ensures exists { SettledPairExists }
    ensures one { SettledPairIsOne }
{}

/// A settled pair is a certificate.
#[tactic(auto, using(crate::proofs::BothSettle::pair_certifies))]
pub fn settled_pair_certifies()
    ensures { SettledPairCertifies }
{}

/// If a cell's head rises by k units and its neighbours' by at most k, its lower balance does not rise
/// (mirrored for the upper one).
#[tactic(auto, using(crate::proofs::BothSides::lower_shifts, crate::proofs::BothSides::upper_shifts))]
pub fn balances_shift()
    ensures lower { LowerShifts }
    ensures upper { UpperShifts }
{}

/// The settled pair of a barrier inside another one is the settled pair of the other one too, if at each cell
/// it has left the inner barrier or the two barriers are equal there.
#[tactic(auto, using(crate::proofs::Leaving::leaving_settles))]
pub fn leaving_settles()
    ensures { LeavingSettles }
{}
