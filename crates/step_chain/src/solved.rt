// The result of a step.
ghost use Rattle.std.specs.Prelude.{◌≡◌, IfOk, IfErr, MatchResult, true};
ghost use Rattle.step_chain.specs.Faults.{of_bound, of_settle, SettlesNot};
ghost use Rattle.step_chain.specs.declared.solved.StepFault.TheVariants.{Memory as OutOfMemory};
ghost use Rattle.step_problem.specs.{lower_at, upper_at, IsCertificate, IsPairOf};
ghost use Rattle.cell_relax.specs.{AreWords};
ghost use Rattle.cell_balance.specs.{IsHeldBelow};
ghost use Rattle.barrier_vector.specs.{EnclosesUncut, IsCutBarrierOf};
ghost use Rattle.model_types.specs.declared.limits.Limits.TheVariants.{Wide};
ghost use Rattle.step_chain.specs.Enclosing.{IsBarrierBy, IsBarrierFault, edges_by, LeadsWithout};

use barrier_vector::{barrier, clamp_barrier, cut_barrier};
use certificate_check::range_refusal;
use model_types::{Limits, Listed};
use std::alloc::{AllocError, Global};
use step_problem::{Barrier, Bound, BoundFault, NoBound, Open, Problem, SettleFault, Settler};

/// A step's problem, the settled pair of its variable cells by their index, and the heads of all cells of the grid
/// by cell number, in units of 10^-9.
#[derive(Drop)]
pub struct Solved {
    pub problem: Problem,
    pub bounds: Listed<Bound>,
    pub heads: Listed<Bound>,
}

/// Why a step has no heads: the refusal of its problem or barrier, a settler that gave up, or lack of memory.
#[derive(Drop)]
pub enum StepFault {
    NoBound(NoBound),
    Unfinished(Open),
    Memory,
}

impl From<AllocError> for StepFault {
    ghost from_gives = { λ _ e. e ≡ OutOfMemory };

    fn from(_e: AllocError) -> StepFault {
        StepFault::Memory
    }
}

impl From<BoundFault> for StepFault {
    ghost from_gives = { λ fault e. e ≡ of_bound fault };

    fn from(fault: BoundFault) -> StepFault {
        match fault {
            BoundFault::NoBound(refusal) => StepFault::NoBound(refusal),
            BoundFault::Memory => StepFault::Memory,
        }
    }
}

impl From<SettleFault> for StepFault {
    ghost from_gives = { λ fault e. e ≡ of_settle fault };

    fn from(fault: SettleFault) -> StepFault {
        match fault {
            SettleFault::Unfinished(open) => StepFault::Unfinished(open),
            SettleFault::Memory => StepFault::Memory,
        }
    }
}

// The barrier of a step's problem by the limits of a run, and the settling over it.

/// The barrier of a problem by limits, or its refusal of 24 to 27; with wide limits floors and ceilings out of the range of
/// heads are cut, and the refusal is 24 or 25.
#[tactic(auto, using(crate::proofs::Limits::plain_found, crate::proofs::Limits::plain_uncut))]
pub fn barrier_by(alloc: Global, limits: Limits, p: &Problem) -> Result<Barrier, BoundFault>
    ensures barrier { IfOk result (IsBarrierBy limits p.now) }
    ensures fault { IfErr result (IsBarrierFault limits p.now) }
    ensures held { IfOk result (λ b. IsHeldBelow p.now) }
    ensures encloses { IfOk result (EnclosesUncut p.now) }
{
    p.recall_conditions();
    match limits {
        Limits::Plain => barrier(alloc, p),
        Limits::Wide => cut_barrier(alloc, p),
    }
}

// Settles over the cut barrier, clamped.
fn settle_cut<S: Settler>(
    alloc: Global,
    p: &Problem,
    cut: &Barrier,
    settler: &mut S,
) -> Result<Vec<Bound>, StepFault>
    requires ready { S.ready settler.old }
    requires barrier { IsCutBarrierOf p.now cut.now }
    ensures rounds { S.rounds settler.new ≡ S.rounds settler.old }
    ensures ready { S.ready settler.new }
    ensures pair { IfOk result (λ v. IsPairOf p.now S.pairs (edges_by Wide cut.now) v.items) }
    ensures certificate { IfOk result (λ v. IsCertificate p.now cut.now (lower_at v.items) (upper_at v.items)) }
    ensures words { IfOk result (λ v. AreWords p.now v.items) }
    ensures fault { IfErr result (SettlesNot Wide p.now cut.now (S.rounds settler.old)) }
    ensures leads { MatchResult result
        (λ _. S.leads settler.old p.now (edges_by Wide cut.now) true settler.new)
        (λ _. LeadsWithout S.leads Wide p.now cut.now settler.old settler.new) }
{
    p.recall_conditions();
    let edges = clamp_barrier(alloc, cut)?;
    let bounds = settler.settle(alloc, p, &edges)?;
    match range_refusal(p, cut, bounds.as_slice()) {
        Some(refusal) => Err(StepFault::NoBound(refusal)),
        None => Ok(bounds),
    }
}

/// The settler's pair over a barrier by limits. With wide limits a settled pair that is no certificate over the cut barrier is
/// refused. Heads in units of 10^-9; errors: the settler's, and the refusal of 24 to 27 of a pair that is out of the range.
#[tactic(auto, using(step_problem::proofs::Pairs::either_certifies, step_problem::proofs::Pairs::given_is, crate::proofs::Limits::edges_fit))]
pub fn settle_by<S: Settler>(
    alloc: Global,
    limits: Limits,
    p: &Problem,
    barrier: &Barrier,
    settler: &mut S,
) -> Result<Vec<Bound>, StepFault>
    requires ready { S.ready settler.old }
    requires barrier { IsBarrierBy limits p.now barrier.now }
    ensures rounds { S.rounds settler.new ≡ S.rounds settler.old }
    ensures ready { S.ready settler.new }
    ensures pair { IfOk result (λ v. IsPairOf p.now S.pairs (edges_by limits barrier.now) v.items) }
    ensures certificate { IfOk result (λ v. IsCertificate p.now barrier.now (lower_at v.items) (upper_at v.items)) }
    ensures words { IfOk result (λ v. AreWords p.now v.items) }
    ensures fault { IfErr result (SettlesNot limits p.now barrier.now (S.rounds settler.old)) }
    ensures leads { MatchResult result
        (λ _. S.leads settler.old p.now (edges_by limits barrier.now) true settler.new)
        (λ _. LeadsWithout S.leads limits p.now barrier.now settler.old settler.new) }
{
    p.recall_conditions();
    match limits {
        Limits::Plain => Ok(settler.settle(alloc, p, barrier)?),
        Limits::Wide => settle_cut(alloc, p, barrier, settler),
    }
}
