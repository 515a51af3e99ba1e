// The sum of what a term gives more under a plan, or of what it gives less. It stops at 2^126, so that adding a flow can't overflow.
ghost use Rattle.std.specs.Prelude.{◌≡◌, ◌<◌, ◌^◌, All, cond, map};
ghost use Rattle.std.specs.List.{filter};
ghost use Rattle.step_problem.specs.{CellFits, FixedFits, lower_at, magnitude, upper_at};
ghost use Rattle.cell_relax.specs.{AreWords};
ghost use Rattle.budget_bounds.specs.{AreHeads, IsFlow, IsSum, capped_term, part, parts, plus_pair};
ghost use Rattle.plan_gains.specs.{HasBranches, HasBranchesOf, branch_gain, branches_of, counts, gains, term_gain, turned, well_gain};

use budget_bounds::{TermPair, add_part};
use step_problem::{Bound, Branch, Cell, Dir, Fixed, FixedKind, Flow, Problem, Side, Term};

pub(crate) const NOTHING: TermPair = TermPair { lo: 0, hi: 0 };

// What the base plan has more, as the plan has it more.
fn turned(flow: TermPair) -> TermPair
    requires { IsFlow flow }
    ensures value { result ≡ turned flow }
    ensures flow { IsFlow result }
{
    TermPair {
        lo: -flow.hi,
        hi: -flow.lo,
    }
}

// What a branch gives more under the plan, where the difference of the heads lies within `own`.
fn branch_gain(own: Bound, branch: &Fixed) -> TermPair
    requires own { AreHeads own }
    requires fits { FixedFits branch.now }
    requires small { branch.now.hi < 2 ^ 60 }
    ensures value { result ≡ branch_gain own.low own.high branch.now }
    ensures flow { IsFlow result }
{
    turned(TermPair {
        lo: branch.flow_at(Side::Low, own.high),
        hi: branch.flow_at(Side::High, own.low),
    })
}

// Whether a branch among those of a term's is one of the term's.
fn counts(term: Term, branch: &Fixed) -> bool
    ensures { result ≡ counts term branch.now }
{
    match term {
        Term::Drains | Term::RiverLeakage | Term::Et => true,
        Term::Storage => matches!(branch.kind, FixedKind::Storage),
        Term::ConstantHead => matches!(branch.kind, FixedKind::Constant),
        Term::HeadDepBounds => matches!(branch.kind, FixedKind::General),
        Term::Wells | Term::Recharge => false,
    }
}

// Adds what a branch gives, if it is one of the term's.
fn add_branch(dir: Dir, sum: TermPair, own: Bound, term: Term, branch: &Fixed) -> TermPair
    requires sum { IsSum sum }
    requires own { AreHeads own }
    requires fits { FixedFits branch.now }
    requires small { branch.now.hi < 2 ^ 60 }
    ensures value { result ≡ cond (counts term branch.now) (capped_term (plus_pair sum (part dir (branch_gain own.low own.high branch.now)))) sum }
    ensures sum { IsSum result }
{
    if counts(term, branch) {
        add_part(dir, sum, branch_gain(own, branch))
    } else {
        sum
    }
}

// Adds what a term's branches give.
fn add_branches(dir: Dir, sum: TermPair, own: Bound, term: Term, branches: &[Fixed]) -> TermPair
    requires sum { IsSum sum }
    requires own { AreHeads own }
    requires fit { All FixedFits branches.now }
    requires small { All (λ x. x.hi < 2 ^ 60) branches.now }
    ensures value { result ≡ capped_term (plus_pair sum (parts dir (map (branch_gain own.low own.high) (filter (λ x. counts term x) branches.now)))) }
    ensures sum { IsSum result }
{
    let mut all = sum;
    for x in branches {
        all = add_branch(dir, all, own, term, x);
    }
    all
}

// What a well of the plan gives.
fn well_gain(well: &Flow) -> TermPair
    requires { magnitude well.now.lo well.now.hi < 2 ^ 109 }
    ensures value { result ≡ well_gain well.now }
    ensures flow { IsFlow result }
{
    turned(TermPair {
        lo: well.lo,
        hi: well.hi,
    })
}

// Adds what the plan's wells give.
fn add_wells(dir: Dir, sum: TermPair, wells: &[Flow]) -> TermPair
    requires sum { IsSum sum }
    requires fit { All (λ q. magnitude q.lo q.hi < 2 ^ 109) wells.now }
    ensures value { result ≡ capped_term (plus_pair sum (parts dir (map well_gain wells.now))) }
    ensures sum { IsSum result }
{
    let mut all = sum;
    for x in wells {
        all = add_part(dir, all, well_gain(x));
    }
    all
}

// The branches of a cell of the differences among which are those of a term, by the base plan's cell.
fn branches_of<'a>(term: Term, base: &Cell, cell: &'a Cell) -> &'a [Fixed]
    requires fits { CellFits cell.now }
    requires branches { HasBranches base.now cell.now }
    ensures value { result.now ≡ branches_of term base.now cell.now }
    ensures fit { All FixedFits result.now }
    ensures small { All (λ x. x.hi < 2 ^ 60) result.now }
{
    let fixed: &[Fixed] = &cell.fixed;
    let (known, ramps) = fixed.split_at(base.fixed.len());
    let (rivers, others) = ramps.split_at(base.rivers.len());
    let (drains, evaps) = others.split_at(base.drains.len());
    match term {
        Term::RiverLeakage => rivers,
        Term::Drains => drains,
        Term::Et => evaps,
        Term::Storage => known,
        Term::ConstantHead => known,
        Term::HeadDepBounds => known,
        Term::Wells => known,
        Term::Recharge => known,
    }
}

// Adds what a cell gives by a term.
fn add_cell(dir: Dir, term: Term, sum: TermPair, own: Bound, base: &Cell, cell: &Cell) -> TermPair
    requires sum { IsSum sum }
    requires own { AreHeads own }
    requires fits { CellFits cell.now }
    requires branches { HasBranches base.now cell.now }
    ensures value { result ≡ capped_term (plus_pair sum (parts dir (gains term base.now cell.now own.low own.high))) }
    ensures sum { IsSum result }
{
    match term {
        Term::Recharge => sum,
        Term::Wells => add_wells(dir, sum, &cell.flows),
        _ => add_branches(dir, sum, own, term, branches_of(term, base, cell)),
    }
}

/// What a term gives more (In), or less (Out), over all cells: at most 2^126.
#[tactic(auto, using(crate::proofs::TermSums::one_more, crate::proofs::TermSums::all_below))]
pub(crate) fn term_gain(
    base: &Problem,
    p: &Problem,
    bounds: &[Bound],
    dir: Dir,
    term: Term,
) -> TermPair
    requires words { AreWords p.now bounds.now }
    requires branches { HasBranchesOf base.now p.now }
    ensures value { result ≡ capped_term (term_gain base.now p.now (lower_at bounds.now) (upper_at bounds.now) dir term) }
    ensures sum { IsSum result }
{
    p.recall_conditions();
    let mut sum = NOTHING;
    for c in 0..p.len() {
        let plan = base.cell(c);
        let cell = p.cell(c);
        sum = add_cell(dir, term, sum, bounds[c], plan, cell);
    }
    sum
}
