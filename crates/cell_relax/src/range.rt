// A test of heads that are kept as one bound for each cell.
ghost use Rattle.std.specs.Prelude.{◌↔◌, IsTrue};
ghost use Rattle.cell_relax.specs.{AreWords};

use step_problem::{Bound, Problem, is_head};

/// Whether there is one bound for each variable cell, with heads in range.
pub fn are_words(p: &Problem, words: &[Bound]) -> bool
    ensures { IsTrue result ↔ AreWords p.now words.now }
{
    words.len() == p.len() && words.iter().all(|b| is_head(b.low) && is_head(b.high))
}
