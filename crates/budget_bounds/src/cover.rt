// Whether the bounds of one budget reach as far as those of another.
ghost use Rattle.std.specs.Prelude.{◌≡◌, ◌<◌, ◌↔◌, IsTrue, MatchOption};
ghost use Rattle.budget_bounds.specs.{Covers, IsFirstShort, IsFirstUncovered, ReachesAsFar, place_of, bounds_in, fixed_term, flow_term};

use crate::pair::{Budget, TermPair};
use step_problem::{Dir, FixedKind, FlowKind, Term};

fn reaches(a: TermPair, b: TermPair) -> bool
    ensures { IsTrue result ↔ ReachesAsFar a b }
{
    a.lo <= b.lo && b.hi <= a.hi
}

// The bounds of a term in a budget.
fn bounds_in(budget: &Budget, dir: Dir, term: Term) -> TermPair
    ensures { result ≡ bounds_in budget.now dir term }
{
    match dir {
        Dir::In => budget.into[place_of(term)],
        Dir::Out => budget.out[place_of(term)],
    }
}

fn term_reaches(listed: &Budget, computed: &Budget, dir: Dir, term: Term) -> bool
    ensures { IsTrue result ↔ ReachesAsFar (bounds_in listed.now dir term) (bounds_in computed.now dir term) }
{
    reaches(bounds_in(listed, dir, term), bounds_in(computed, dir, term))
}

// The first term in this direction whose listed bounds don't reach as far as the computed ones.
fn first_short(listed: &Budget, computed: &Budget, dir: Dir) -> Option<Term>
    ensures { MatchOption result ((t : Term) → ReachesAsFar (bounds_in listed.now dir t) (bounds_in computed.now dir t))
        (λ t. IsFirstShort listed.now computed.now dir t) }
{
    for place in 0..8 {
        let term = term_at(place);
        if !term_reaches(listed, computed, dir, term) {
            return Some(term);
        }
    }
    None
}

/// The first term whose listed bounds do not reach as far as the computed ones, all In terms before all Out
/// terms. Bounds reach as far as others if their lower one is at most the other lower one, and their upper one at
/// least the other upper one.
pub fn first_uncovered(listed: &Budget, computed: &Budget) -> Option<(Dir, Term)>
    ensures { MatchOption result (Covers listed.now computed.now) (λ t. IsFirstUncovered listed.now computed.now t.0 t.1) }
{
    if let Some(term) = first_short(listed, computed, Dir::In) {
        return Some((Dir::In, term));
    }
    let term = first_short(listed, computed, Dir::Out)?;
    Some((Dir::Out, term))
}

// The term of an entry's flow.

/// The place of a term in the listing.
pub(crate) fn place_of(term: Term) -> usize
    ensures place { result ≡ place_of term }
    ensures eight { result < 8 }
{
    match term {
        Term::Storage => 0,
        Term::ConstantHead => 1,
        Term::Wells => 2,
        Term::Drains => 3,
        Term::RiverLeakage => 4,
        Term::HeadDepBounds => 5,
        Term::Recharge => 6,
        Term::Et => 7,
    }
}

/// The term at a place in the listing.
pub(crate) fn term_at(place: usize) -> Term
    requires { place < 8 }
    ensures { place_of result ≡ place }
{
    match place {
        0 => Term::Storage,
        1 => Term::ConstantHead,
        2 => Term::Wells,
        3 => Term::Drains,
        4 => Term::RiverLeakage,
        5 => Term::HeadDepBounds,
        6 => Term::Recharge,
        _ => Term::Et,
    }
}

pub(crate) fn fixed_term(kind: FixedKind) -> Term
    ensures { result ≡ fixed_term kind }
{
    match kind {
        FixedKind::Storage => Term::Storage,
        FixedKind::Constant => Term::ConstantHead,
        FixedKind::General => Term::HeadDepBounds,
    }
}

pub(crate) fn flow_term(kind: FlowKind) -> Term
    ensures { result ≡ flow_term kind }
{
    match kind {
        FlowKind::Wells => Term::Wells,
        FlowKind::Recharge => Term::Recharge,
    }
}
