// Whether heads have left a barrier inside another one.
ghost use Rattle.std.specs.Prelude.{◌≡◌, ◌<◌, ℕ, length, true};
ghost use Rattle.step_problem.specs.{IsBarrier, head_at, lower_at, upper_at, HaveLeft};
ghost use Rattle.cell_relax.specs.{heads_on};
ghost use Rattle.settle_driver.specs.{HasLeft};

use cell_relax::head_on;
use step_problem::{Barrier, Bound, Problem, Side};

// Whether a head has left an inner edge, or the inner edge is the edge.
fn has_left(side: Side, edge: i64, inner: i64, head: i64) -> bool
    ensures { result ≡ true → HasLeft side edge inner head }
{
    match side {
        Side::Low => inner <= edge || inner < head,
        Side::High => edge <= inner || head < inner,
    }
}

fn all_have_left(side: Side, edges: &[i64], inner: &[i64], bounds: &[Bound]) -> bool
    requires edges { length bounds.now ≡ length edges.now }
    requires inner { length bounds.now ≡ length inner.now }
    ensures { result ≡ true → (c : ℕ) → c < length bounds.now → HasLeft side (head_at edges.now c) (head_at inner.now c) (heads_on side bounds.now c) }
{
    for cell in 0..bounds.len() {
        if !has_left(side, edges[cell], inner[cell], head_on(side, bounds[cell])) {
            return false;
        }
    }
    true
}

/// Whether at each cell both heads have left the inner barrier, or the inner barrier is equal to b there.
pub fn have_left(p: &Problem, b: &Barrier, inner: &Barrier, bounds: &[Bound]) -> bool
    requires barrier { IsBarrier p.now b.now }
    requires inner { IsBarrier p.now inner.now }
    requires whole { length bounds.now ≡ length p.now }
    ensures { result ≡ true → HaveLeft p.now b.now inner.now (lower_at bounds.now) (upper_at bounds.now) }
{
    all_have_left(
        Side::Low,
        b.floor.as_slice(),
        inner.floor.as_slice(),
        bounds,
    ) && all_have_left(
        Side::High,
        b.ceiling.as_slice(),
        inner.ceiling.as_slice(),
        bounds,
    )
}
