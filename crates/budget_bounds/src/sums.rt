// The sums of a term's flows. A sum stops at 2^126, so that adding a flow can't overflow.
ghost use Rattle.std.specs.Prelude.{◌≡◌, ◌*◌, ◌<◌, ◌^◌, cond, map, All, pos, ◌+ℤ◌, ◌≤ℤ◌};
ghost use Rattle.std.specs.Int.{int_max, int_min};
ghost use Rattle.std.specs.List.{filter};
ghost use Rattle.step_problem.specs.{CellFits};
ghost use Rattle.step_problem.specs.declared.place.Term.{Term};
ghost use Rattle.budget_bounds.specs.{entry_pair, is_term, part, singles, parts, term_limit, AreHeads, AreSums, IsFlow, IsPartOfFlow, IsSum, capped_term};
ghost use Rattle.budget_bounds.specs.{plus_pair, sum_of};

use crate::cover::place_of;
use crate::flows::{Entry, entry_pair};
use crate::pair::TermPair;
use step_problem::{Bound, Cell, Dir, Term};

/// What a term, or the magnitudes of the flows between two zones, must stay below, in units of 10^-(s+9) flow units.
pub const TERM_LIMIT: i128 = 1 << 126;

fn positive_part(flow: i128) -> i128
    requires { flow ≤ℤ pos (2 ^ 123) }
    ensures value { result ≡ int_max flow (pos 0) }
    ensures above { pos 0 ≤ℤ result }
    ensures below { result ≤ℤ pos (2 ^ 123) }
{
    flow.max(0)
}

// The part of a flow that goes in, or out.
fn in_or_out(dir: Dir, flow: TermPair) -> TermPair
    requires { IsFlow flow }
    ensures value { result ≡ part dir flow }
    ensures part { IsPartOfFlow result }
{
    match dir {
        Dir::In => TermPair {
            lo: positive_part(flow.lo),
            hi: positive_part(flow.hi),
        },
        Dir::Out => TermPair {
            lo: positive_part(-flow.hi),
            hi: positive_part(-flow.lo),
        },
    }
}

fn plus_capped(sum: i128, part: i128) -> i128
    requires sum_above { pos 0 ≤ℤ sum }
    requires sum_below { sum ≤ℤ term_limit }
    requires part_above { pos 0 ≤ℤ part }
    requires part_below { part ≤ℤ pos (2 ^ 123) }
    ensures value { result ≡ int_min (sum +ℤ part) term_limit }
    ensures above { pos 0 ≤ℤ result }
    ensures below { result ≤ℤ term_limit }
{
    (sum + part).min(TERM_LIMIT)
}

/// A sum with what of one more flow goes in, or out, as a magnitude. A sum stays at 2^126 once it is there.
pub fn add_part(dir: Dir, sum: TermPair, flow: TermPair) -> TermPair
    requires sum { IsSum sum }
    requires flow { IsFlow flow }
    ensures value { result ≡ capped_term (plus_pair sum (part dir flow)) }
    ensures sum { IsSum result }
{
    let part = in_or_out(dir, flow);
    TermPair {
        lo: plus_capped(sum.lo, part.lo),
        hi: plus_capped(sum.hi, part.hi),
    }
}

/// The sum of a term.
pub(crate) fn sum_of(sums: &[TermPair; 8], term: Term) -> TermPair
    ensures { result ≡ sum_of sums.now term }
{
    sums[place_of(term)]
}

// Adds a flow to the sum of its term.
fn add_flow(sums: &mut [TermPair; 8], dir: Dir, term: Term, flow: TermPair)
    requires sums { AreSums sums.old }
    requires flow { IsFlow flow }
    ensures value { (t : Term) → sum_of sums.new t ≡ cond (is_term t term) (capped_term (plus_pair (sum_of sums.old t) (part dir flow))) (sum_of sums.old t) }
    ensures sums { AreSums sums.new }
{
    let sum = add_part(dir, sum_of(sums, term), flow);
    sums[place_of(term)] = sum;
}

fn add_entries<E: Entry>(sums: &mut [TermPair; 8], dir: Dir, own: Bound, entries: &[E])
    requires own { AreHeads own }
    requires sums { AreSums sums.old }
    requires fit { All E.fits entries.now }
    requires weights { All (λ x. E.weight x * E.unit < 2 ^ 123) entries.now }
    ensures value { (t : Term) → sum_of sums.new t
        ≡ capped_term (plus_pair (sum_of sums.old t) (parts dir (map (entry_pair E.flow own.low own.high) (filter (λ x. is_term t (E.of x)) entries.now)))) }
    ensures sums { AreSums sums.new }
{
    for x in entries {
        add_flow(sums, dir, x.term(), entry_pair(x, own));
    }
}

/// Adds what of a cell's flows goes in, or out, each to the sum of its term.
pub(crate) fn add_cell(sums: &mut [TermPair; 8], dir: Dir, own: Bound, cell: &Cell)
    requires own { AreHeads own }
    requires sums { AreSums sums.old }
    requires fits { CellFits cell.now }
    ensures value { (t : Term) → sum_of sums.new t ≡ capped_term (plus_pair (sum_of sums.old t) (parts dir (singles t cell.now own.low own.high))) }
    ensures sums { AreSums sums.new }
{
    add_entries(sums, dir, own, &cell.fixed);
    add_entries(sums, dir, own, &cell.flows);
    add_entries(sums, dir, own, &cell.drains);
    add_entries(sums, dir, own, &cell.rivers);
    add_entries(sums, dir, own, &cell.evaps);
}
