// The problem of the differences of two plans' heads at a time step.
ghost use Rattle.std.specs.Prelude.{◌≡◌, ◌<◌, ◌≤◌, ◌^◌, ℕ, All, IfOk, drop, length, map};
ghost use Rattle.step_problem.specs.{CellFits, IsHead, entries_at, magnitude};
ghost use Rattle.plan_step.specs.{IsDifferenceProblem, bound_at, difference_cell, known_branch, turned};

use crate::branches::Ramp;
use std::alloc::{AllocError, Global};
use step_problem::{Bound, Cell, Fixed, FixedKind, Flow, Problem};

// The bound at a place, zeros past the end.
fn bound_at(bounds: &[Bound], place: usize) -> Bound
    ensures { result ≡ bound_at bounds.now place }
{
    match bounds.get(place) {
        Some(bound) => *bound,
        None => Bound { low: 0, high: 0 },
    }
}

// What the plan takes, the base plan has more.
fn turned(flow: Flow) -> Flow
    requires fits { magnitude flow.lo flow.hi < 2 ^ 109 }
    ensures { result ≡ turned flow }
{
    Flow {
        kind: flow.kind,
        lo: -flow.hi,
        hi: -flow.lo,
    }
}

// The flows of the other plan's cell after the first `count`, turned round.
#[tactic(auto, using(std::proofs::lemmas::List::drop_all))]
fn turned_flows(alloc: Global, count: usize, flows: &[Flow]) -> Result<Vec<Flow>, AllocError>
    requires fits { All (λ q. magnitude q.lo q.hi < 2 ^ 109) flows.now }
    ensures { IfOk result (λ v. v.items ≡ map turned (drop count flows.now)) }
{
    let mut turned_round = Vec::new(alloc);
    if flows.len() <= count {
        return Ok(turned_round);
    }
    let added = &flows[count..];
    for i in 0..added.len() {
        turned_round.push(turned(added[i]))?;
    }
    Ok(turned_round)
}

fn known_branch(old: Bound, known: Fixed) -> Fixed
    ensures { result ≡ known_branch old known }
{
    let (head_lo, head_hi) = match known.kind {
        FixedKind::Storage => (old.low, old.high),
        FixedKind::Constant | FixedKind::General => (0, 0),
    };
    Fixed {
        kind: known.kind,
        source: known.source,
        lo: known.lo,
        hi: known.hi,
        head_lo,
        head_hi,
    }
}

fn known_branches(alloc: Global, old: Bound, fixed: &[Fixed]) -> Result<Vec<Fixed>, AllocError>
    ensures { IfOk result (λ v. v.items ≡ map (known_branch old) fixed.now) }
{
    let mut branches = Vec::new(alloc);
    for i in 0..fixed.len() {
        branches.push(known_branch(old, fixed[i]))?;
    }
    Ok(branches)
}

pub(crate) fn ramp_branches<E: Ramp + Drop>(
    alloc: Global,
    id: u32,
    base: Bound,
    planned: Bound,
    entries: &[E],
) -> Result<Vec<Fixed>, AllocError>
    ensures { IfOk result (λ v. v.items ≡ map (E.branch_of id base planned) entries.now) }
{
    let mut branches = Vec::new(alloc);
    for i in 0..entries.len() {
        branches.push(entries[i].branch(id, base, planned))?;
    }
    Ok(branches)
}

fn difference_cell(
    alloc: Global,
    base_head: Bound,
    planned_head: Bound,
    old: Bound,
    base: &Cell,
    planned: &Cell,
) -> Result<Cell, AllocError>
    requires fits { All (λ q. magnitude q.lo q.hi < 2 ^ 109) planned.now.flows }
    ensures { IfOk result (λ r. r ≡ difference_cell base_head planned_head old base.now planned.now) }
{
    let flows = turned_flows(alloc, base.flows.len(), &planned.flows)?;
    let links = Vec::from_slice(alloc, &base.links)?;
    let mut fixed = known_branches(alloc, old, &base.fixed)?;
    let mut rivers = ramp_branches(alloc, base.id, base_head, planned_head, &base.rivers)?;
    let mut drains = ramp_branches(alloc, base.id, base_head, planned_head, &base.drains)?;
    let evaps = ramp_branches(alloc, base.id, base_head, planned_head, &base.evaps)?;
    drains.extend_from_slice(&evaps)?;
    rivers.extend_from_slice(&drains)?;
    fixed.extend_from_slice(&rivers)?;
    Ok(Cell {
        id: base.id,
        flows,
        links,
        fixed,
        rivers: Vec::new(alloc),
        drains: Vec::new(alloc),
        evaps: Vec::new(alloc),
    })
}

// The cell of an index, by both plans' problems and heads.
#[tactic(auto, using(crate::proofs::Fits::flows_fit))]
fn cell_by(
    alloc: Global,
    base: &Problem,
    planned: &Problem,
    base_heads: &[Bound],
    planned_heads: &[Bound],
    old: &[Bound],
    c: usize,
) -> Result<Cell, AllocError>
    requires as_many { length planned.now ≡ length base.now }
    requires within { c < length base.now }
    ensures { IfOk result (λ r. r ≡ difference_cell (bound_at base_heads.now c) (bound_at planned_heads.now c)
        (bound_at old.now (entries_at base.now c).id) (entries_at base.now c) (entries_at planned.now c)) }
{
    planned.recall_conditions();
    let cell = base.cell(c);
    let other = planned.cell(c);
    let id = cell.id as usize;
    difference_cell(
        alloc,
        bound_at(base_heads, c),
        bound_at(planned_heads, c),
        bound_at(old, id),
        cell,
        other,
    )
}

fn difference_cells(
    alloc: Global,
    base: &Problem,
    planned: &Problem,
    base_heads: &[Bound],
    planned_heads: &[Bound],
    old: &[Bound],
) -> Result<Vec<Cell>, AllocError>
    requires as_many { length planned.now ≡ length base.now }
    ensures { IfOk result (λ r. IsDifferenceProblem base.now planned.now base_heads.now planned_heads.now old.now r.items) }
{
    let mut cells = Vec::new(alloc);
    for c in 0..base.len() {
        let cell = cell_by(alloc, base, planned, base_heads, planned_heads, old, c)?;
        cells.push(cell)?;
    }
    Ok(cells)
}

/// The problem of the differences, base plan less other plan, of a time step: from the problems of both plans at the step, the heads of their
/// variable cells, by index, and the differences at the end of the step before, of all cells of the grid, by cell number. In each cell the other
/// plan has the base plan's flows, and after them those of its own wells.
///
/// Whatever the weather between the two decks, the same in both plans, the problem encloses the step of the differences (`laws`).
pub fn difference_problem(
    alloc: Global,
    base: &Problem,
    planned: &Problem,
    base_heads: &[Bound],
    planned_heads: &[Bound],
    old: &[Bound],
) -> Result<Problem, AllocError>
    requires as_many { length planned.now ≡ length base.now }
    requires old { All (λ b. IsHead b.low × IsHead b.high) old.now }
    ensures problem { IfOk result (IsDifferenceProblem base.now planned.now base_heads.now planned_heads.now old.now) }
{
    base.recall_conditions();
    planned.recall_conditions();
    let cells = difference_cells(alloc, base, planned, base_heads, planned_heads, old)?;
    Ok(Problem::new(cells))
}
