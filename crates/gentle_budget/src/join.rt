// The budgets of both sides and stored water, joined.
ghost use Rattle.std.specs.Prelude.{◌≡◌, Result, Ok, Err, if◌then◌else◌, cond, map};
ghost use Rattle.step_problem.specs.declared.place.Dir.{Dir};
ghost use Rattle.step_problem.specs.declared.place.Dir.TheVariants.{In, Out};
ghost use Rattle.step_problem.specs.declared.place.Term.TheVariants.{Storage};
ghost use Rattle.budget_bounds.specs.declared.pair.TermPair.{TermPair};
ghost use Rattle.budget_bounds.specs.{all_terms, is_small, is_term, sum_of, too_large};
ghost use Rattle.gentle_budget.specs.{joined_budget, joined_pair};

use budget_bounds::{Budget, TERM_LIMIT, TermPair};
use step_problem::{Dir, NoBound, Place, StepRefusal, Term};

/// A sum of stored water, or FlowTooLarge.
pub(crate) fn stored_term(dir: Dir, sum: TermPair) -> Result<TermPair, NoBound>
    ensures { result ≡ (if is_small sum then Ok sum else Err (too_large dir Storage)) }
{
    if sum.lo < TERM_LIMIT && sum.hi < TERM_LIMIT {
        Ok(sum)
    } else {
        Err(NoBound {
            code: StepRefusal::FlowTooLarge.number(),
            place: Place::Term(dir, Term::Storage),
        })
    }
}

// A term by its bounds at the lower heads and at the upper ones.
fn joined_pair(dir: Dir, low: TermPair, high: TermPair) -> TermPair
    ensures { result ≡ joined_pair dir low high }
{
    match dir {
        Dir::In => TermPair {
            lo: high.lo,
            hi: low.hi,
        },
        Dir::Out => TermPair {
            lo: low.lo,
            hi: high.hi,
        },
    }
}

// All terms of a direction.
fn joined_terms(
    dir: Dir,
    stored: TermPair,
    low: &[TermPair; 8],
    high: &[TermPair; 8],
) -> [TermPair; 8]
    ensures { result ≡ map (λ t. cond (is_term t Storage) stored (joined_pair dir (sum_of low.now t) (sum_of high.now t))) all_terms }
{
    [
        stored,
        joined_pair(dir, low[1], high[1]),
        joined_pair(dir, low[2], high[2]),
        joined_pair(dir, low[3], high[3]),
        joined_pair(dir, low[4], high[4]),
        joined_pair(dir, low[5], high[5]),
        joined_pair(dir, low[6], high[6]),
        joined_pair(dir, low[7], high[7]),
    ]
}

/// The budgets at the lower heads and at the upper ones, and the terms of stored water, as one budget.
pub(crate) fn joined_budget(low: &Budget, high: &Budget, into: TermPair, out: TermPair) -> Budget
    ensures { (stored : Dir → TermPair) → stored In ≡ into → stored Out ≡ out → result ≡ joined_budget low.now high.now stored }
{
    Budget {
        into: joined_terms(Dir::In, into, &low.into, &high.into),
        out: joined_terms(Dir::Out, out, &low.out, &high.out),
    }
}
