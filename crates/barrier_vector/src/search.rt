// The search by levels: each cell's least number of links to a root, and its path there.
ghost use Rattle.std.specs.Prelude.{◌≡◌, ℕ, ◌<◌, ◌≤◌, ◌+◌, ◌^◌, length, List, [], ◌∷◌, ◌++◌, Option, OnOk, All, IfOk, min, Some, None, MatchOption, ◌⊎◌};
ghost use Rattle.std.specs.Prelude.{Contains, slice_index};
ghost use Rattle.barrier_vector.specs.{ceil_over, mark_at, path_limit, IsNearestOrNone, ContinuesTo, IsSearched, AreBegun};

use crate::spread::{mark_cell, spread};
use std::alloc::{AllocError, Global};
use step_problem::{Link, Problem};

/// A path of this length leads out of the range of heads.
pub(crate) const PATH_LIMIT: u64 = 8_000_000_000_000_000_001;

/// What a search finds: the level of each cell that leads to a root, and its path, cut off at the limit.
#[derive(Drop)]
pub(crate) struct Found {
    pub levels: Vec<Option<u32>>,
    pub paths: Vec<u64>,
}

/// The drop of head on a branch that carries `q`: the least whole number not below q / lo.
pub(crate) fn drop_over(q: u128, lo: u64) -> u128
    requires q { q ≤ 2 ^ 126 }
    requires lo { 0 < lo }
    ensures { result ≡ ceil_over q lo }
{
    (q + (lo as u128 - 1)) / lo as u128
}

fn longer_path(drop: u128, rest: u64) -> u64
    ensures { result ≡ min (drop + rest) path_limit }
{
    drop.saturating_add(rest as u128).min(PATH_LIMIT as u128) as u64
}

fn nearer_link(best: Option<Link>, x: &Link) -> Link
    ensures within { MatchOption best (result ≡ x.now) (λ b. (result.cell ≤ b.cell) × ((result ≡ b) ⊎ (result ≡ x.now))) }
    ensures no_farther { result.cell ≤ x.now.cell }
{
    match best {
        Some(b) if b.cell <= x.cell => b,
        _ => *x,
    }
}

// The link to the neighbour with the least number among those of this level.
fn parent(links: &[Link], levels: &[Option<u32>], level: u32) -> Option<Link>
    requires { All (λ x. x.cell < length levels.now) links.now }
    ensures { IsNearestOrNone links.now levels.now level (length links.now) result }
{
    let mut best = None;
    for x in links {
        if levels[x.cell as usize] == Some(level) {
            best = Some(nearer_link(best, x));
        }
    }
    best
}

fn path_from(
    p: &Problem,
    cell: usize,
    levels: &[Option<u32>],
    level: u32,
    paths: &[u64],
    q: u128,
) -> u64
    requires cell { cell < length p.now }
    requires levels { length levels.now ≡ length p.now }
    requires paths { length paths.now ≡ length p.now }
    requires q { q ≤ 2 ^ 126 }
    ensures { ContinuesTo p.now q levels.now level paths.now cell result }
{
    p.recall_conditions();
    match parent(&p.cell(cell).links, levels, level) {
        Some(x) => longer_path(drop_over(q, x.lo), paths[x.cell as usize]),
        None => 0,
    }
}

// Gives each cell of the frontier, which is past this level, its path through its parent.
fn extend_paths(
    p: &Problem,
    levels: &[Option<u32>],
    level: u32,
    frontier: &[u32],
    q: u128,
    paths: &mut [u64],
)
    requires levels { length levels.now ≡ length p.now }
    requires paths { length paths.old ≡ length p.now }
    requires frontier { All (λ c. c < length p.now) frontier.now }
    requires past { All (λ c. mark_at levels.now c ≡ Some level → ⊥) frontier.now }
    requires q { q ≤ 2 ^ 126 }
    ensures others { (c : ℕ) → (Contains frontier.now c → ⊥) → slice_index paths.new c ≡ slice_index paths.old c }
    ensures paths { (c : ℕ) → Contains frontier.now c → ContinuesTo p.now q levels.now level paths.old c (slice_index paths.new c) }
{
    for c in frontier {
        paths[*c as usize] = path_from(p, *c as usize, levels, level, paths, q);
    }
}

// Marks the roots, at level 0, gives them their own drops as paths, and returns them.
fn begin(
    alloc: Global,
    own: &[Option<u128>],
    levels: &mut [Option<u32>],
    paths: &mut [u64],
) -> Result<Vec<u32>, AllocError>
    requires few { length own.now < 2 ^ 32 }
    requires levels { length levels.old ≡ length own.now }
    requires paths { length paths.old ≡ length own.now }
    ensures { IfOk result (λ roots. AreBegun own.now (length own.now) levels.old levels.new paths.new roots.items) }
{
    let mut roots = Vec::new(alloc);
    for c in 0..own.len() {
        if let Some(drop) = own[c] {
            mark_cell(levels, &mut roots, c as u32, 0)?;
            paths[c] = longer_path(drop, 0);
        }
    }
    Ok(roots)
}

/// The level and the path of each cell that leads to a root. `own` has the own drops of the roots, None at the other cells; each branch carries at most `q`.
pub(crate) fn search(
    alloc: Global,
    p: &Problem,
    own: &[Option<u128>],
    q: u128,
) -> Result<Found, AllocError>
    requires own { length own.now ≡ length p.now }
    requires q { q ≤ 2 ^ 126 }
    ensures { IfOk result (λ f. IsSearched p.now q own.now f.levels.items f.paths.items) }
{
    let count = p.len();
    let mut levels = vec![in alloc; None; count]?;
    let mut paths = vec![in alloc; 0; count]?;
    let mut frontier = begin(alloc, own, &mut levels, &mut paths)?;
    let mut left = count - frontier.len();
    let mut level = 0;
    while left > 0 && !frontier.is_empty() {
        frontier = spread(alloc, p, &mut levels, &frontier, level + 1)?;
        extend_paths(p, &levels, level, &frontier, q, &mut paths);
        left -= frontier.len();
        level += 1;
    }
    Ok(Found { levels, paths })
}
