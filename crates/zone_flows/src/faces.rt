// The faces of a problem, cell by cell.
ghost use Rattle.std.specs.Prelude.{◌≡◌, ◌≤◌, ◌<◌, ◌^◌, ℕ, All, OnOk, length, ◌-ℤ◌};
ghost use Rattle.std.specs.List.{flat_map};
ghost use Rattle.step_problem.specs.{lower_at, upper_at, entries_at, CellFits, IsHead, least, most};
ghost use Rattle.budget_bounds.specs.{IsFlow, AreHeads};
ghost use Rattle.zone_flows.specs.{Gains, faces_in, from_to, kind_faces, is_lower_zone, walk_faces};

use crate::table::{Table, add_face};
use crate::walk::Walk;
use budget_bounds::TermPair;
use std::alloc::AllocError;
use step_problem::{Bound, Cell, Fixed, FixedKind, Link, Side, branch_flow};

fn head_difference(of: i64, from: i64) -> i64
    requires of { IsHead of }
    requires from { IsHead from }
    ensures { result ≡ of -ℤ from }
{
    of - from
}

// The least and the greatest flow from x to y.
fn flow_between(x: Bound, y: Bound, lo: u64, hi: u64) -> TermPair
    requires x { AreHeads x }
    requires y { AreHeads y }
    requires ordered { lo ≤ hi }
    requires small { hi < 2 ^ 60 }
    ensures value { result ≡ record { lo = least lo hi (x.low -ℤ y.high); hi = most lo hi (x.high -ℤ y.low) } }
    ensures flow { IsFlow result }
{
    TermPair {
        lo: branch_flow(Side::Low, lo, hi, head_difference(x.low, y.high)),
        hi: branch_flow(Side::High, lo, hi, head_difference(x.high, y.low)),
    }
}

// Whether cells of these zones have a face that counts from the first to the second.
fn is_face(from: u32, to: u32) -> bool
    ensures { result ≡ is_lower_zone from to }
{
    0 < from && from < to
}

// Adds the face from cell x to cell y, where the zone of x is the lower of two zones.
#[tactic(auto, unfolding(crate::specs::Faces::face_from), using(crate::proofs::Tables::nothing))]
fn add_face_from(
    table: &mut Table,
    walk: &Walk,
    x: u32,
    y: u32,
    lo: u64,
    hi: u64,
) -> Result<(), AllocError>
    requires x { x < length walk.now.zones.now }
    requires y { y < length walk.now.zones.now }
    requires ordered { lo ≤ hi }
    requires small { hi < 2 ^ 60 }
    ensures { OnOk result (Gains table.old.map table.new.map (from_to walk.now x y lo hi)) }
{
    let from = walk.zones[x as usize];
    let to = walk.zones[y as usize];
    if is_face(from, to) {
        let flow = flow_between(walk.heads[x as usize], walk.heads[y as usize], lo, hi);
        add_face(table, from, to, flow)
    } else {
        Ok(())
    }
}

// Adds the face of a link. Most links are within a zone, so the other cell is only read where its zone is another.
#[tactic(auto, unfolding(crate::specs::Faces::face_from), using(crate::proofs::Tables::nothing))]
fn add_link(table: &mut Table, walk: &Walk, id: u32, x: &Link) -> Result<(), AllocError>
    requires id { id < length walk.now.zones.now }
    requires end { x.now.cell < length walk.now.problem.now }
    requires ordered { x.now.lo ≤ x.now.hi }
    requires small { x.now.hi < 2 ^ 60 }
    ensures { OnOk result (Gains table.old.map table.new.map (from_to walk.now id (entries_at walk.now.problem.now x.now.cell).id x.now.lo x.now.hi)) }
{
    if is_face(walk.zones[id as usize], walk.zone_at(x.cell as usize)) {
        add_face_from(table, walk, id, walk.id_at(x.cell as usize), x.lo, x.hi)
    } else {
        Ok(())
    }
}

#[tactic(auto, using(crate::proofs::Tables::nothing, crate::proofs::Tables::one_more))]
fn add_links(table: &mut Table, walk: &Walk, id: u32, links: &[Link]) -> Result<(), AllocError>
    requires id { id < length walk.now.zones.now }
    requires ends { All (λ x. x.cell < length walk.now.problem.now) links.now }
    requires ordered { All (λ x. x.lo ≤ x.hi) links.now }
    requires small { All (λ x. x.hi < 2 ^ 60) links.now }
    ensures { OnOk result (Gains table.old.map table.new.map
        (flat_map (λ x. from_to walk.now id (entries_at walk.now.problem.now x.cell).id x.lo x.hi) links.now)) }
{
    for x in links {
        add_link(table, walk, id, x)?;
    }
    Ok(())
}

// Adds the face to a constant-head cell, whose zone may be the lower or the higher.
#[tactic(auto, using(crate::proofs::Tables::gains_add_up, crate::proofs::Tables::nothing))]
fn add_constant(table: &mut Table, walk: &Walk, id: u32, x: &Fixed) -> Result<(), AllocError>
    requires id { id < length walk.now.zones.now }
    requires source { x.now.source < length walk.now.zones.now }
    requires ordered { x.now.lo ≤ x.now.hi }
    requires small { x.now.hi < 2 ^ 60 }
    ensures { OnOk result (Gains table.old.map table.new.map (kind_faces walk.now x.now.kind id x.now.source x.now.lo x.now.hi)) }
{
    match x.kind {
        FixedKind::Storage | FixedKind::General => Ok(()),
        FixedKind::Constant => {
            add_face_from(table, walk, id, x.source, x.lo, x.hi)?;
            add_face_from(table, walk, x.source, id, x.lo, x.hi)?;
            Ok(())
        }
    }
}

#[tactic(auto, using(crate::proofs::Tables::nothing, crate::proofs::Tables::one_more))]
fn add_fixed(table: &mut Table, walk: &Walk, id: u32, fixed: &[Fixed]) -> Result<(), AllocError>
    requires id { id < length walk.now.zones.now }
    requires sources { All (λ x. x.source < length walk.now.zones.now) fixed.now }
    requires ordered { All (λ x. x.lo ≤ x.hi) fixed.now }
    requires small { All (λ x. x.hi < 2 ^ 60) fixed.now }
    ensures { OnOk result (Gains table.old.map table.new.map (flat_map (λ x. kind_faces walk.now x.kind id x.source x.lo x.hi) fixed.now)) }
{
    for x in fixed {
        add_constant(table, walk, id, x)?;
    }
    Ok(())
}

#[tactic(auto, unfolding(crate::specs::Faces::cell_faces), using(crate::proofs::Tables::gains_add_up))]
fn add_cell(table: &mut Table, walk: &Walk, cell: &Cell) -> Result<(), AllocError>
    requires id { cell.now.id < length walk.now.zones.now }
    requires ends { All (λ x. x.cell < length walk.now.problem.now) cell.now.links }
    requires sources { All (λ x. x.source < length walk.now.zones.now) cell.now.fixed }
    requires fits { CellFits cell.now }
    ensures { OnOk result (Gains table.old.map table.new.map (faces_in walk.now cell.now)) }
{
    add_links(table, walk, cell.id, &cell.links)?;
    add_fixed(table, walk, cell.id, &cell.fixed)?;
    Ok(())
}

/// Adds the faces of a problem.
#[tactic(auto, using(crate::proofs::Tables::nothing, crate::proofs::Tables::one_more, crate::proofs::Tables::all_gained))]
pub(crate) fn add_faces(table: &mut Table, walk: &Walk) -> Result<(), AllocError>
    requires { (c : ℕ) → c < length walk.now.problem.now → All (λ x. x.source < length walk.now.zones.now) (entries_at walk.now.problem.now c).fixed }
    ensures { OnOk result (Gains table.old.map table.new.map (walk_faces walk.now)) }
{
    for c in 0..walk.problem.len() {
        add_cell(table, walk, walk.problem.cell(c))?;
    }
    Ok(())
}
