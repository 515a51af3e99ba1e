// The floors and ceilings that settling begins at, from those of a cut barrier.
ghost use Rattle.std.specs.Prelude.{◌≡◌, map, IfOk};
ghost use Rattle.barrier_vector.specs.{clamp, clamped_edges};

use std::alloc::{AllocError, Global};
use step_problem::Barrier;
use step_problem::problem::HEAD_LIMIT;

fn heads_of(alloc: Global, bounds: &[i64]) -> Result<Vec<i64>, AllocError>
    ensures { IfOk result (λ heads. heads.items ≡ map clamp bounds.now) }
{
    let heads = bounds
        .iter()
        .map(|bound| (*bound).clamp(-HEAD_LIMIT, HEAD_LIMIT));
    heads.collect(alloc)
}

/// The barrier of heads that settling begins at: each floor and ceiling that was cut, moved to the end of the range of heads.
pub fn clamp_barrier(alloc: Global, barrier: &Barrier) -> Result<Barrier, AllocError>
    ensures { IfOk result (λ b. b ≡ clamped_edges barrier.now) }
{
    Ok(Barrier {
        floor: heads_of(alloc, &barrier.floor)?,
        ceiling: heads_of(alloc, &barrier.ceiling)?,
    })
}
