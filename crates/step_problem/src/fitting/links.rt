// Whether the links of one cell lead to different other cells that lead back.
ghost use Rattle.std.specs.Prelude.{◌≡◌, ◌<◌, ◌≤◌, ◌↔◌, ℕ, IsTrue, All, Contains, ◌^◌, length};
ghost use Rattle.step_problem.specs.{entries_at, link_at, LinksFit, cell_limit};

use crate::entry::{Cell, Link};

// Each cell has at most six neighbours.
pub(crate) const MOST_LINKS: usize = 6;

// Whether no link before index j leads to the same cell as link j.
fn is_first_link_to_its_cell(links: &[Link], j: usize) -> bool
    requires { j < length links.now }
    ensures { IsTrue result ↔ ((i : ℕ) → i < j → (link_at links.now i).cell ≡ (link_at links.now j).cell → ⊥) }
{
    let end = links[j].cell;
    links[..j].iter().all(|x| x.cell != end)
}

fn ends_differ(links: &[Link]) -> bool
    ensures { IsTrue result ↔ ((i j : ℕ) → i < j → j < length links.now → (link_at links.now i).cell ≡ (link_at links.now j).cell → ⊥) }
{
    for j in 0..links.len() {
        if !is_first_link_to_its_cell(links, j) {
            return false;
        }
    }
    true
}

fn are_others(links: &[Link], c: usize, count: usize) -> bool
    ensures { IsTrue result ↔ (All (λ x. x.cell < count) links.now × All (λ x. x.cell ≡ c → ⊥) links.now) }
{
    links.iter().all(|x| (x.cell as usize) < count) && links.iter().all(|x| x.cell as usize != c)
}

// Whether they lead to different other cells.
fn ends_fit(links: &[Link], c: usize, count: usize) -> bool
    ensures { IsTrue result ↔ (All (λ x. x.cell < count) links.now × All (λ x. x.cell ≡ c → ⊥) links.now
        × ((i j : ℕ) → i < j → j < length links.now → (link_at links.now i).cell ≡ (link_at links.now j).cell → ⊥)) }
{
    are_others(links, c, count) && ends_differ(links)
}

fn has_link(links: &[Link], wanted: Link) -> bool
    ensures { IsTrue result ↔ Contains links.now wanted }
{
    links.contains(&wanted)
}

// Whether the cell at the other end of x has a link like x back to the cell of index c.
fn leads_back(cells: &[Cell], c: usize, x: &Link) -> bool
    requires { c < 2 ^ 32 }
    ensures { IsTrue result ↔ Contains (entries_at cells.now x.now.cell).links (record { cell = c; lo = x.now.lo; hi = x.now.hi }) }
{
    match cells.get(x.cell as usize) {
        Some(end) => has_link(
            &end.links,
            Link {
                cell: c as u32,
                lo: x.lo,
                hi: x.hi,
            },
        ),
        None => false,
    }
}

fn all_lead_back(cells: &[Cell], c: usize, links: &[Link]) -> bool
    requires { c < 2 ^ 32 }
    ensures { IsTrue result ↔ All (λ x. Contains (entries_at cells.now x.cell).links (record { cell = c; lo = x.lo; hi = x.hi })) links.now }
{
    for x in links {
        if !leads_back(cells, c, x) {
            return false;
        }
    }
    true
}

fn these_fit(cells: &[Cell], c: usize, links: &[Link]) -> bool
    requires { c < 2 ^ 32 }
    ensures { IsTrue result ↔ LinksFit cells.now c links.now }
{
    links.len() <= MOST_LINKS && ends_fit(links, c, cells.len()) && all_lead_back(cells, c, links)
}

pub(crate) fn links_fit(cells: &[Cell], c: usize) -> bool
    requires index { c < length cells.now }
    requires few { length cells.now ≤ cell_limit }
    ensures { IsTrue result ↔ LinksFit cells.now c (entries_at cells.now c).links }
{
    let cell: &Cell = &cells[c];
    these_fit(cells, c, &cell.links)
}
