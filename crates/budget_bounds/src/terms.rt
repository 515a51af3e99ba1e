// The budget's terms, each of them tested.
ghost use Rattle.std.specs.Prelude.{◌≡◌, IfOk};
ghost use Rattle.step_problem.specs.{lower_at, upper_at};
ghost use Rattle.cell_relax.specs.{AreWords};
ghost use Rattle.budget_bounds.specs.{EnclosesBudgets, all_terms, budget_of, term_pair, capped_term, sum_of, term_or_refusal, tested_budget, tested_terms};
ghost use Rattle.step_problem.specs.declared.place.Term.{Term};
ghost use Rattle.step_problem.specs.declared.place.Dir.TheVariants.{In, Out};

use crate::pair::{Budget, TermPair};
use crate::sums::{TERM_LIMIT, add_cell, sum_of};
use step_problem::{Bound, Dir, NoBound, Place, Problem, StepRefusal, Term};

#[tactic(auto, unfolding(crate::specs::Exact::term_or_refusal))]
fn term_of(sums: &[TermPair; 8], dir: Dir, term: Term) -> Result<TermPair, NoBound>
    ensures { result ≡ term_or_refusal dir term (sum_of sums.now term) }
{
    let sum = sum_of(sums, term);
    if sum.lo < TERM_LIMIT && sum.hi < TERM_LIMIT {
        Ok(sum)
    } else {
        Err(NoBound {
            code: StepRefusal::FlowTooLarge.number(),
            place: Place::Term(dir, term),
        })
    }
}

#[tactic(auto, unfolding(crate::specs::Exact::tested_terms))]
fn terms_of(sums: &[TermPair; 8], dir: Dir) -> Result<[TermPair; 8], NoBound>
    ensures { result ≡ tested_terms sums.now dir all_terms }
{
    let storage = term_of(sums, dir, Term::Storage)?;
    let constant = term_of(sums, dir, Term::ConstantHead)?;
    let wells = term_of(sums, dir, Term::Wells)?;
    let drains = term_of(sums, dir, Term::Drains)?;
    let rivers = term_of(sums, dir, Term::RiverLeakage)?;
    let general = term_of(sums, dir, Term::HeadDepBounds)?;
    let recharge = term_of(sums, dir, Term::Recharge)?;
    let et = term_of(sums, dir, Term::Et)?;
    Ok([
        storage, constant, wells, drains, rivers, general, recharge, et,
    ])
}

#[tactic(auto, unfolding(crate::specs::Exact::tested_budget))]
fn budget_of_sums(sums: &Budget) -> Result<Budget, NoBound>
    ensures { result ≡ tested_budget sums.now.into sums.now.out }
{
    let into = terms_of(&sums.into, Dir::In)?;
    let out = terms_of(&sums.out, Dir::Out)?;
    Ok(Budget { into, out })
}

/// The bounds of the budget of a step whose heads lie between these bounds, in units of 10^-(s+9) flow units, or
/// FlowTooLarge at the first term with a bound that reaches 2^126: all In terms are tried in their order, and then
/// all Out terms. A lower head may exceed the upper one. It takes no memory.
#[tactic(auto, using(crate::proofs::Enclosed::budget_encloses, crate::proofs::Caps::budget_tested))]
pub fn budget(p: &Problem, bounds: &[Bound]) -> Result<Budget, NoBound>
    requires bounds { AreWords p.now bounds.now }
    ensures budget { result ≡ budget_of p.now (lower_at bounds.now) (upper_at bounds.now) }
    ensures encloses { IfOk result (λ b. EnclosesBudgets p.now (lower_at bounds.now) (upper_at bounds.now) b) }
{
    budget_of_sums(&flow_sums(p, bounds))
}

// The sums of all terms, in one walk over the cells.

const NOTHING: TermPair = TermPair { lo: 0, hi: 0 };

/// The sums of each term over all cells, each of which stops at 2^126.
#[tactic(auto, using(crate::proofs::Caps::one_more, crate::proofs::Caps::all_below))]
fn flow_sums(p: &Problem, bounds: &[Bound]) -> Budget
    requires { AreWords p.now bounds.now }
    ensures into { (t : Term) → sum_of result.into t ≡ capped_term (term_pair p.now (lower_at bounds.now) (upper_at bounds.now) In t) }
    ensures out { (t : Term) → sum_of result.out t ≡ capped_term (term_pair p.now (lower_at bounds.now) (upper_at bounds.now) Out t) }
{
    let mut into = [NOTHING; 8];
    let mut out = [NOTHING; 8];
    for c in 0..p.len() {
        let cell = p.cell(c);
        add_cell(&mut into, Dir::In, bounds[c], cell);
        add_cell(&mut out, Dir::Out, bounds[c], cell);
    }
    Budget { into, out }
}
