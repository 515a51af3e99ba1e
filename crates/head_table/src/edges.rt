// The words with which settling begins.
ghost use Rattle.std.specs.Prelude.{◌<◌, IfOk};
ghost use Rattle.step_problem.specs.{AreOnTheWay, IsBarrier};
ghost use Rattle.relax_core.specs.{AreEdges};

use std::alloc::{AllocError, Global};
use step_problem::{Barrier, Bound, Problem};

/// A barrier's own heads, as words: one bound for each cell, from its floor to its ceiling.
pub fn edge_words(alloc: Global, p: &Problem, b: &Barrier) -> Result<Vec<Bound>, AllocError>
    requires { IsBarrier p.now b.now }
    ensures edges { IfOk result (λ v. AreEdges p.now b.now v.items) }
    ensures way { IfOk result (λ v. AreOnTheWay p.now b.now v.items) }
{
    p.recall_conditions();
    let mut words = Vec::new(alloc);
    for cell in 0..b.floor.len() {
        let word = Bound {
            low: b.floor[cell],
            high: b.ceiling[cell],
        };
        words.push(word)?;
    }
    Ok(words)
}
