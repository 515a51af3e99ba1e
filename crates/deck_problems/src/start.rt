// The heads before the first time step.
ghost use Rattle.std.specs.Prelude.{IfOk, ◌≡◌, ◌<◌, length};
ghost use Rattle.problem_builder.specs.{AreGridHeads, bound_at};
ghost use Rattle.deck_problems.specs.{AreDecks, EnclosesStarts, AreStartHeadsFor, IsHullBound, AreHullBounds};

use crate::decks::Decks;
use crate::laws;
use model_types::Listed;
use problem_builder::start_heads;
use std::alloc::{AllocError, Global};
use step_problem::Bound;

/// The bounds of the heads of all cells before the first step, by cell number, in units of 10^-9: those of STRT of the
/// one deck, or the hulls of both decks' ones.
pub fn start_heads_for(alloc: Global, decks: &Decks) -> Result<Listed<Bound>, AllocError>
    requires { AreDecks decks.now }
    ensures bounds { IfOk result (AreStartHeadsFor decks.now) }
    ensures heads { IfOk result (AreGridHeads decks.now.first) }
    ensures encloses { IfOk result (EnclosesStarts decks.now) }
{
    laws::start_heads();
    let first = Listed::new(start_heads(alloc, &decks.first)?);
    let Some(model) = &decks.second else {
        return Ok(first);
    };
    let second = start_heads(alloc, model)?;
    Ok(hull_bounds(first, &second))
}

// The hull of the bounds of two decks.

fn bound_at(bounds: &[Bound], cell: usize) -> Bound
    requires { cell < length bounds.now }
    ensures { result ≡ bound_at bounds.now cell }
{
    bounds[cell]
}

fn hull_bound(a: Bound, b: Bound) -> Bound
    ensures { IsHullBound a b result }
{
    Bound {
        low: a.low.min(b.low),
        high: a.high.max(b.high),
    }
}

// The hulls of the bounds of each cell, in place of the first.
pub(crate) fn hull_bounds(first: Listed<Bound>, second: &[Bound]) -> Listed<Bound>
    requires { length second.now ≡ length first }
    ensures { AreHullBounds first second.now result }
{
    let mut hulls = first;
    for cell in 0..second.len() {
        let a = bound_at(hulls.as_slice(), cell);
        let b = bound_at(second, cell);
        hulls.set(cell, hull_bound(a, b));
    }
    hulls
}
