// The sources of a plan, from the sums of its terms.
ghost use Rattle.std.specs.Prelude.{◌≡◌, ◌^◌, ◌+ℤ◌, ◌-ℤ◌, ◌≤ℤ◌, Err, IfOk, MatchResult, Ok, map, pos};
ghost use Rattle.std.specs.Int.{int_max, int_min};
ghost use Rattle.step_problem.specs.{IsMagnitudeAtMost, lower_at, upper_at};
ghost use Rattle.cell_relax.specs.{AreWords};
ghost use Rattle.budget_bounds.specs.{IsFlow, IsSum, all_terms, sum_of, too_large};
ghost use Rattle.plan_gains.specs.{AreNets, HasBranchesOf, IsSmall, listed, lower_total, net_of, net_or_large, source, sources_or_large, sum_or_large};
ghost use Rattle.plan_gains.specs.{sums_or_large, tighter_of, total_of, upper_total};

use crate::sums::{NOTHING, term_gain};
use budget_bounds::TermPair;
use step_problem::{Bound, Dir, NoBound, Place, Problem, StepRefusal, Term};

// What the sum of a term must stay below, in units of 10^-(s+9) flow units, so that those of all terms together stay below 2^126.
const GAIN_LIMIT: i128 = 1 << 123;

fn too_large(dir: Dir, term: Term) -> NoBound
    ensures { result ≡ too_large dir term }
{
    NoBound {
        code: StepRefusal::FlowTooLarge.number(),
        place: Place::Term(dir, term),
    }
}

// What is given more, less what is given less.
fn difference(more: i128, less: i128) -> i128
    requires more { (pos 0 ≤ℤ more) × (more ≤ℤ pos (2 ^ 123)) }
    requires less { (pos 0 ≤ℤ less) × (less ≤ℤ pos (2 ^ 123)) }
    ensures value { result ≡ more -ℤ less }
    ensures within { IsMagnitudeAtMost result (2 ^ 123) }
{
    more - less
}

// A sum of what is given more, less a sum of what is given less.
fn net_of(more: TermPair, less: TermPair) -> TermPair
    requires more { IsSum more }
    requires less { IsSum less }
    requires more_small { IsSmall more }
    requires less_small { IsSmall less }
    ensures value { result ≡ net_of more less }
    ensures flow { IsFlow result }
{
    TermPair {
        lo: difference(more.lo, less.hi),
        hi: difference(more.hi, less.lo),
    }
}

// What a term gives more, less what it gives less, where both sums stay below the limit.
fn net_or_large(term: Term, more: TermPair, less: TermPair) -> Result<TermPair, NoBound>
    requires more { IsSum more }
    requires less { IsSum less }
    ensures value { result ≡ net_or_large term more less }
    ensures net { IfOk result IsFlow }
{
    if more.lo < GAIN_LIMIT && more.hi < GAIN_LIMIT {
        if less.lo < GAIN_LIMIT && less.hi < GAIN_LIMIT {
            Ok(net_of(more, less))
        } else {
            Err(too_large(Dir::Out, term))
        }
    } else {
        Err(too_large(Dir::In, term))
    }
}

// What a term gives more over all cells.
fn sum_of(base: &Problem, p: &Problem, bounds: &[Bound], term: Term) -> Result<TermPair, NoBound>
    requires words { AreWords p.now bounds.now }
    requires branches { HasBranchesOf base.now p.now }
    ensures value { result ≡ sum_or_large base.now p.now (lower_at bounds.now) (upper_at bounds.now) term }
    ensures net { IfOk result IsFlow }
{
    let more = term_gain(base, p, bounds, Dir::In, term);
    let less = term_gain(base, p, bounds, Dir::Out, term);
    net_or_large(term, more, less)
}

/// What each term gives more over all cells.
#[derive(Clone, Copy)]
pub(crate) struct TermSums {
    pub storage: TermPair,
    pub constant: TermPair,
    pub wells: TermPair,
    pub drains: TermPair,
    pub rivers: TermPair,
    pub general: TermPair,
    pub recharge: TermPair,
    pub et: TermPair,
}

#[tactic(auto, unfolding(crate::specs::Gains::sums_or_large))]
fn sums_of(base: &Problem, p: &Problem, bounds: &[Bound]) -> Result<TermSums, NoBound>
    requires words { AreWords p.now bounds.now }
    requires branches { HasBranchesOf base.now p.now }
    ensures value { MatchResult result (λ sums. sums_or_large base.now p.now (lower_at bounds.now) (upper_at bounds.now) all_terms ≡ Ok (listed sums))
        (λ n. sums_or_large base.now p.now (lower_at bounds.now) (upper_at bounds.now) all_terms ≡ Err n) }
    ensures nets { IfOk result AreNets }
{
    let storage = sum_of(base, p, bounds, Term::Storage)?;
    let constant = sum_of(base, p, bounds, Term::ConstantHead)?;
    let wells = sum_of(base, p, bounds, Term::Wells)?;
    let drains = sum_of(base, p, bounds, Term::Drains)?;
    let rivers = sum_of(base, p, bounds, Term::RiverLeakage)?;
    let general = sum_of(base, p, bounds, Term::HeadDepBounds)?;
    let recharge = sum_of(base, p, bounds, Term::Recharge)?;
    let et = sum_of(base, p, bounds, Term::Et)?;
    Ok(TermSums {
        storage,
        constant,
        wells,
        drains,
        rivers,
        general,
        recharge,
        et,
    })
}

// The sum of four.
fn sum_of_four(a: i128, b: i128, c: i128, d: i128) -> i128
    requires a { IsMagnitudeAtMost a (2 ^ 123) }
    requires b { IsMagnitudeAtMost b (2 ^ 123) }
    requires c { IsMagnitudeAtMost c (2 ^ 123) }
    requires d { IsMagnitudeAtMost d (2 ^ 123) }
    ensures value { result ≡ (a +ℤ b) +ℤ (c +ℤ d) }
    ensures within { IsMagnitudeAtMost result (2 ^ 125) }
{
    (a + b) + (c + d)
}

// The sum of two such sums.
fn sum_of_two(a: i128, b: i128) -> i128
    requires a { IsMagnitudeAtMost a (2 ^ 125) }
    requires b { IsMagnitudeAtMost b (2 ^ 125) }
    ensures value { result ≡ a +ℤ b }
    ensures within { IsMagnitudeAtMost result (2 ^ 126) }
{
    a + b
}

// The sum of all lower ends.
fn lower_total(sums: &TermSums) -> i128
    requires { AreNets sums.now }
    ensures value { result ≡ lower_total sums.now }
    ensures within { IsMagnitudeAtMost result (2 ^ 126) }
{
    let first = sum_of_four(
        sums.storage.lo,
        sums.constant.lo,
        sums.wells.lo,
        sums.drains.lo,
    );
    let last = sum_of_four(
        sums.rivers.lo,
        sums.general.lo,
        sums.recharge.lo,
        sums.et.lo,
    );
    sum_of_two(first, last)
}

// The sum of all upper ends.
fn upper_total(sums: &TermSums) -> i128
    requires { AreNets sums.now }
    ensures value { result ≡ upper_total sums.now }
    ensures within { IsMagnitudeAtMost result (2 ^ 126) }
{
    let first = sum_of_four(
        sums.storage.hi,
        sums.constant.hi,
        sums.wells.hi,
        sums.drains.hi,
    );
    let last = sum_of_four(
        sums.rivers.hi,
        sums.general.hi,
        sums.recharge.hi,
        sums.et.hi,
    );
    sum_of_two(first, last)
}

// The sum of all terms.
fn total_of(sums: &TermSums) -> TermPair
    requires { AreNets sums.now }
    ensures value { result ≡ total_of sums.now }
    ensures low { IsMagnitudeAtMost result.lo (2 ^ 126) }
    ensures high { IsMagnitudeAtMost result.hi (2 ^ 126) }
{
    TermPair {
        lo: lower_total(sums),
        hi: upper_total(sums),
    }
}

// What the sum of all leaves a term.
fn left_over(own: i128, all: i128) -> i128
    requires own { IsMagnitudeAtMost own (2 ^ 123) }
    requires all { IsMagnitudeAtMost all (2 ^ 126) }
    ensures { result ≡ own -ℤ all }
{
    own - all
}

fn greater(a: i128, b: i128) -> i128
    ensures { result ≡ int_max a b }
{
    a.max(b)
}

fn lesser(a: i128, b: i128) -> i128
    ensures { result ≡ int_min a b }
{
    a.min(b)
}

// The tighter of a term's own sum and of what all terms leave it.
fn tighter_of(own: TermPair, all: TermPair) -> TermPair
    requires own { IsFlow own }
    requires low { IsMagnitudeAtMost all.lo (2 ^ 126) }
    requires high { IsMagnitudeAtMost all.hi (2 ^ 126) }
    ensures { result ≡ tighter_of own all }
{
    TermPair {
        lo: greater(own.lo, left_over(own.hi, all.hi)),
        hi: lesser(own.hi, left_over(own.lo, all.lo)),
    }
}

// The sources by the sums of all terms.
fn sources_by(sums: &TermSums) -> [TermPair; 8]
    requires { AreNets sums.now }
    ensures { result ≡ map (source (sum_of (listed sums.now))) all_terms }
{
    let all = total_of(sums);
    let storage = tighter_of(sums.storage, all);
    let constant = tighter_of(sums.constant, all);
    let drains = tighter_of(sums.drains, all);
    let rivers = tighter_of(sums.rivers, all);
    let general = tighter_of(sums.general, all);
    let et = tighter_of(sums.et, all);
    [
        storage, constant, NOTHING, drains, rivers, general, NOTHING, et,
    ]
}

/// What each term gives more under the plan, in the order of the listing, in units of 10^-(s+9); WELLS and RECHARGE have 0. From the base plan's
/// problem, the problem of the differences, and the differences of its cells. FlowTooLarge at the first term whose branches give 2^123 units more, or
/// else less. It takes no memory.
#[tactic(auto, unfolding(crate::specs::Gains::sources_or_large))]
pub fn sources(base: &Problem, p: &Problem, bounds: &[Bound]) -> Result<[TermPair; 8], NoBound>
    requires words { AreWords p.now bounds.now }
    requires branches { HasBranchesOf base.now p.now }
    ensures { result ≡ sources_or_large base.now p.now (lower_at bounds.now) (upper_at bounds.now) }
{
    match sums_of(base, p, bounds) {
        Ok(sums) => Ok(sources_by(&sums)),
        Err(refusal) => Err(refusal),
    }
}
