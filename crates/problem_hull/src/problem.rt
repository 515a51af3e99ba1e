// The hull of two problems.
ghost use Rattle.std.specs.Prelude.{◌≡◌, IfOk, IfErr, map, ◌<◌, length, ℕ, All};
ghost use Rattle.problem_hull.specs.Hulls.{IsHull, IsHullOf, cell_hull, cell_shape, zip_with, AreAlike};
ghost use Rattle.problem_hull.specs.Refusals.{IsHullFault, IsUnlike, sum_refusal, first_refusal};
ghost use Rattle.step_problem.specs.{entries_at, RiverFits, EvapFits};
ghost use Rattle.problem_hull.specs.declared.problem.HullFault.TheVariants.{Memory};

use crate::entries::Bounded;
use std::alloc::{AllocError, AllocFailed, Global};
use step_problem::{Cell, NoBound, Place, Problem, Side, StepRefusal, conductances_fit, flows_fit};

/// The hull of two problems: at each place of each entry the lesser of the two lower bounds and the greater of the two
/// upper ones. They have none exactly where they are not alike. A hull is no problem where a sum of one of its cells
/// is too large: the first such cell is refused, by the number and the place that the problem of one model has.
#[tactic(auto, using(crate::proofs::Fits::cell_has, crate::proofs::Fits::rivers_fit, crate::proofs::Fits::evaps_fit, crate::proofs::Fits::is_problem))]
pub fn hull(alloc: Global, p: &Problem, q: &Problem) -> Result<Problem, HullFault>
    ensures hull { IfOk result (λ r. IsHull p.now q.now r) }
    ensures fault { IfErr result (IsHullFault p.now q.now) }
{
    p.recall_conditions();
    q.recall_conditions();
    let cells = cell_hulls(alloc, p, q)?;
    match first_too_large(&cells) {
        Some(refusal) => Err(HullFault::NoBound(refusal)),
        None => Ok(Problem::new(cells)),
    }
}

// The hulls of two lists of entries, place by place.

#[tactic(auto, using(crate::proofs::Hulls::hull_more, crate::proofs::Hulls::unlike_at))]
pub fn hulls<E: Bounded + Drop>(alloc: Global, a: &[E], b: &[E]) -> Result<Vec<E>, HullFault>
    ensures hulls { IfOk result (λ v. IsHullOf (map E.shape) (zip_with E.hull_of) a.now b.now v.items) }
    ensures fault { IfErr result (IsUnlike (map E.shape b.now ≡ map E.shape a.now)) }
{
    if a.len() != b.len() {
        return Err(HullFault::NotAlike);
    }
    let mut hulls = Vec::new(alloc);
    for i in 0..a.len() {
        match a[i].hull(b[i]) {
            Some(hull) => hulls.push(hull)?,
            None => return Err(HullFault::NotAlike),
        }
    }
    Ok(hulls)
}

// The hulls of the cells of two problems.

// The hull of two cells.
fn cell_hull(alloc: Global, a: &Cell, b: &Cell) -> Result<Cell, HullFault>
    ensures hull { IfOk result (λ r. IsHullOf cell_shape cell_hull a.now b.now r) }
    ensures fault { IfErr result (IsUnlike (cell_shape b.now ≡ cell_shape a.now)) }
{
    if a.id != b.id {
        return Err(HullFault::NotAlike);
    }
    let flows = hulls(alloc, &a.flows, &b.flows)?;
    let links = hulls(alloc, &a.links, &b.links)?;
    let fixed = hulls(alloc, &a.fixed, &b.fixed)?;
    let rivers = hulls(alloc, &a.rivers, &b.rivers)?;
    let drains = hulls(alloc, &a.drains, &b.drains)?;
    let evaps = hulls(alloc, &a.evaps, &b.evaps)?;
    Ok(Cell {
        id: a.id,
        flows,
        links,
        fixed,
        rivers,
        drains,
        evaps,
    })
}

// The hulls of all cells.
pub fn cell_hulls(alloc: Global, p: &Problem, q: &Problem) -> Result<Vec<Cell>, HullFault>
    ensures hulls { IfOk result (λ r. IsHull p.now q.now r.items) }
    ensures fault { IfErr result (IsUnlike (AreAlike p.now q.now)) }
{
    if p.len() != q.len() {
        return Err(HullFault::NotAlike);
    }
    let mut cells = Vec::new(alloc);
    for i in 0..p.len() {
        let cell = cell_hull(alloc, p.cell(i), q.cell(i))?;
        cells.push(cell)?;
    }
    Ok(cells)
}

// The sums of a hull's cells that are too large.

// The number of the first sum of a cell that is too large.
#[tactic(auto, unfolding(crate::specs::Refusals::sum_refusal))]
fn refusal(cell: &Cell) -> Option<u8>
    requires rivers { All RiverFits cell.now.rivers }
    requires evaps { All EvapFits cell.now.evaps }
    ensures { result ≡ sum_refusal cell.now }
{
    if !conductances_fit(cell) {
        Some(StepRefusal::ConductanceTooLarge.number())
    } else if !flows_fit(cell) {
        Some(StepRefusal::FlowTooLarge.number())
    } else {
        None
    }
}

// The first cell that has a sum too large, with its refusal.
#[tactic(auto, using(crate::proofs::Refusals::entries_named))]
pub fn first_too_large(cells: &[Cell]) -> Option<NoBound>
    requires rivers { (c : ℕ) → c < length cells.now → All RiverFits (entries_at cells.now c).rivers }
    requires evaps { (c : ℕ) → c < length cells.now → All EvapFits (entries_at cells.now c).evaps }
    ensures { result ≡ first_refusal cells.now }
{
    for cell in cells {
        if let Some(code) = refusal(cell) {
            return Some(NoBound {
                code,
                place: Place::Cell(cell.id, Side::Low),
            });
        }
    }
    None
}

// Why two problems have no hull that is a problem.

/// Why two problems have no hull that is a problem: they are not alike; or the first cell whose conductances or flows
/// are too large, with the number of that refusal (22 ConductanceTooLarge, 23 FlowTooLarge); or out of memory.
#[derive(Clone, Copy)]
pub enum HullFault {
    NotAlike,
    NoBound(NoBound),
    Memory,
}

impl From<AllocError> for HullFault {
    ghost from_gives = { λ _ e. e ≡ Memory };

    fn from(_e: AllocError) -> HullFault {
        HullFault::Memory
    }
}

impl<T: Drop> From<AllocFailed<T>> for HullFault {
    ghost from_gives = { λ _ e. e ≡ Memory };

    fn from(_e: AllocFailed<T>) -> HullFault {
        HullFault::Memory
    }
}
