// Settling from heads near the settled ones.
ghost use Rattle.std.specs.Prelude.{◌≡◌, ◌⊎◌, IfOk, MatchOption, ◌<◌, ℕ, length};
ghost use Rattle.std.specs.Result.{is_ok};
ghost use Rattle.step_problem.specs.{IsBarrier, head_at, AreSettled, Settles, settled, IsHead, IsInside};
ghost use Rattle.settle_driver.specs.{IsHeadFrom};

use crate::leaving::have_left;
use std::alloc::{AllocError, Global};
use step_problem::problem::HEAD_LIMIT;
use step_problem::{Barrier, Bound, Problem, SettleFault, Settler, Side};

// The settled pair of b, from that of a barrier inside it, after at most `trials` trials. Each trial settles from a unit off the heads of the one before.
// None where a trial does not settle, or where the heads have not left the last barrier.
fn settled_near<N: Settler>(
    trial: &mut N,
    alloc: Global,
    p: &Problem,
    b: &Barrier,
    near: Vec<Bound>,
    trials: u32,
) -> Result<Option<Vec<Bound>>, AllocError>
    requires ready { N.ready trial.old }
    requires kind { N.pairs ≡ settled }
    requires barrier { IsBarrier p.now b.now }
    ensures settled { IfOk result (λ o. MatchOption o (Unit {0}) (λ v. AreSettled p.now b.now v.items)) }
    ensures rounds { N.rounds trial.new ≡ N.rounds trial.old }
    ensures ready { N.ready trial.new }
{
    p.recall_conditions();
    let mut near = near;
    for _trial in 0..trials {
        let inner = barrier_near(alloc, p, b, near.as_slice())?;
        match trial.settle(alloc, p, &inner) {
            Ok(bounds) => near = bounds,
            Err(SettleFault::Unfinished(_)) => return Ok(None),
            Err(SettleFault::Memory) => return Err(AllocError),
        }
        if have_left(p, b, &inner, near.as_slice()) {
            return Ok(Some(near));
        }
    }
    Ok(None)
}

/// Settles as `settler`, but first from heads that are near the settled ones. They may be any, and too few or too many. At most `trials` trials settle a
/// barrier inside b, a unit off the heads that the last one left. If then each head leaves that barrier, or the barrier is equal to b there, the heads are
/// the settled pair of b. If no trial succeeds, `settler` settles b from its floor and its ceiling; else `settler` is unchanged.
pub fn settle_near<N: Settler, S: Settler>(
    trial: &mut N,
    settler: &mut S,
    alloc: Global,
    p: &Problem,
    b: &Barrier,
    near: Vec<Bound>,
    trials: u32,
) -> Result<Vec<Bound>, SettleFault>
    requires trial { N.ready trial.old }
    requires ready { S.ready settler.old }
    requires kinds { (N.pairs ≡ settled) × (S.pairs ≡ settled) }
    requires barrier { IsBarrier p.now b.now }
    ensures settles { Settles p.now b.now (S.rounds settler.old) result }
    ensures rounds { (N.rounds trial.new ≡ N.rounds trial.old) × (S.rounds settler.new ≡ S.rounds settler.old) }
    ensures ready { N.ready trial.new × S.ready settler.new }
    ensures leads { (settler.new ≡ settler.old) ⊎ S.leads settler.old p.now b.now (is_ok result) settler.new }
{
    match settled_near(trial, alloc, p, b, near, trials) {
        Ok(Some(bounds)) => Ok(bounds),
        Ok(None) => settler.settle(alloc, p, b),
        Err(AllocError) => Err(SettleFault::Memory),
    }
}

// A barrier inside another one, a unit off heads that may be any.

// A unit outside a head that lies inside the edge, else the edge.
fn edge_near(side: Side, edge: i64, near: Option<&Bound>) -> i64
    requires { IsHead edge }
    ensures { IsHeadFrom side edge result }
{
    match (side, near) {
        (Side::Low, Some(bound)) if edge < bound.low && bound.low <= HEAD_LIMIT => bound.low - 1,
        (Side::High, Some(bound)) if bound.high < edge && -HEAD_LIMIT <= bound.high => bound.high
            + 1,
        _ => edge,
    }
}

fn edges_near(
    alloc: Global,
    side: Side,
    edges: &[i64],
    near: &[Bound],
) -> Result<Vec<i64>, AllocError>
    requires { (c : ℕ) → c < length edges.now → IsHead (head_at edges.now c) }
    ensures whole { IfOk result (λ xs. length xs.items ≡ length edges.now) }
    ensures each { IfOk result (λ xs. (c : ℕ) → c < length edges.now → IsHeadFrom side (head_at edges.now c) (head_at xs.items c)) }
{
    let mut moved = Vec::new(alloc);
    for cell in 0..edges.len() {
        moved.push(edge_near(side, edges[cell], near.get(cell)))?;
    }
    Ok(moved)
}

/// A barrier inside b, a unit off these heads where they lie inside b. A cell without a head here keeps its floor and its ceiling.
pub fn barrier_near(
    alloc: Global,
    p: &Problem,
    b: &Barrier,
    near: &[Bound],
) -> Result<Barrier, AllocError>
    requires { IsBarrier p.now b.now }
    ensures barrier { IfOk result (λ d. IsBarrier p.now d) }
    ensures inside { IfOk result (λ d. IsInside p.now b.now d) }
{
    let floor = edges_near(alloc, Side::Low, b.floor.as_slice(), near)?;
    let ceiling = edges_near(alloc, Side::High, b.ceiling.as_slice(), near)?;
    Ok(Barrier { floor, ceiling })
}
