// Whether cells make a problem.
ghost use Rattle.std.specs.Prelude.{◌≡◌, ◌<◌, ◌≤◌, ◌↔◌, ℕ, IsTrue, All, length};
ghost use Rattle.step_problem.specs.{entries_at, LinkFits, FixedFits, RiverFits, DrainFits, EvapFits, CellFits, LinksFit, IsProblem, cell_limit};

mod links;
mod ranges;
pub mod sums;

use crate::entry::Cell;
use links::{MOST_LINKS, links_fit};
use ranges::in_range;
pub use sums::{conductances_fit, flows_fit};

// The cell_limit of specs/Conditions.
const MOST_CELLS: usize = 4_194_304;

/// Whether these cells make a problem: the condition of `Problem::new`. It takes time in proportion to the number of entries.
pub fn fits(cells: &[Cell]) -> bool
    ensures { IsTrue result ↔ IsProblem cells.now }
{
    cells.len() <= MOST_CELLS && ids_ascend(cells) && each_fits(cells)
}

fn ids_ascend(cells: &[Cell]) -> bool
    ensures { IsTrue result ↔ ((c d : ℕ) → c < d → d < length cells.now → (entries_at cells.now c).id < (entries_at cells.now d).id) }
{
    for d in 1..cells.len() {
        let before: &Cell = &cells[d - 1];
        let cell: &Cell = &cells[d];
        if before.id >= cell.id {
            return false;
        }
    }
    true
}

fn each_fits(cells: &[Cell]) -> bool
    requires { length cells.now ≤ cell_limit }
    ensures { IsTrue result ↔ (((c : ℕ) → c < length cells.now → CellFits (entries_at cells.now c))
        × ((c : ℕ) → c < length cells.now → LinksFit cells.now c (entries_at cells.now c).links)) }
{
    all_cells_fit(cells) && all_links_hold(cells)
}

fn all_cells_fit(cells: &[Cell]) -> bool
    ensures { IsTrue result ↔ ((c : ℕ) → c < length cells.now → CellFits (entries_at cells.now c)) }
{
    cells.iter().all(cell_fits)
}

fn cell_fits(cell: &Cell) -> bool
    ensures { IsTrue result ↔ CellFits cell.now }
{
    entries_fit(cell) && conductances_fit(cell) && flows_fit(cell)
}

fn entries_fit(cell: &Cell) -> bool
    ensures { IsTrue result ↔ (All LinkFits cell.now.links × All FixedFits cell.now.fixed
        × All RiverFits cell.now.rivers × All DrainFits cell.now.drains × All EvapFits cell.now.evaps) }
{
    in_range(
        &cell.links,
        &cell.fixed,
        &cell.rivers,
        &cell.drains,
        &cell.evaps,
    )
}

// The numbers of links are tested first, so that no test searches more than six links.
fn all_links_hold(cells: &[Cell]) -> bool
    requires { length cells.now ≤ cell_limit }
    ensures { IsTrue result ↔ ((c : ℕ) → c < length cells.now → LinksFit cells.now c (entries_at cells.now c).links) }
{
    links_are_few(cells) && all_links_fit(cells)
}

fn links_are_few(cells: &[Cell]) -> bool
    ensures { IsTrue result ↔ ((c : ℕ) → c < length cells.now → length (entries_at cells.now c).links ≤ 6) }
{
    cells.iter().all(|cell| cell.links.len() <= MOST_LINKS)
}

fn all_links_fit(cells: &[Cell]) -> bool
    requires { length cells.now ≤ cell_limit }
    ensures { IsTrue result ↔ ((c : ℕ) → c < length cells.now → LinksFit cells.now c (entries_at cells.now c).links) }
{
    for c in 0..cells.len() {
        if !links_fit(cells, c) {
            return false;
        }
    }
    true
}
