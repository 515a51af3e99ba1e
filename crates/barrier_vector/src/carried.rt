// The floors of the cells that lead to no anchor: each component of such cells is carried by its deep flows, or it has no floor.
ghost use Rattle.std.specs.Prelude.{◌≡◌, ◌<◌, length, IfOk};
ghost use Rattle.step_problem.specs.declared.heads.Side.TheVariants.{Low};
ghost use Rattle.barrier_vector.specs.{base_on, lack, capped_flow, IsUnanchored, AreComponents, IsAnchoredOrNone, IsBoundOrNone, AreBounds};

use crate::bounds::move_out;
use crate::gathered::{Total, component_totals};
use crate::roots::self_roots;
use crate::search::search;
use crate::spread::label_components;
use std::alloc::{AllocError, Global};
use step_problem::{Problem, Side};

// The label of each cell's component and its path to the component's least cell; by label the totals of the component.
#[derive(Drop)]
struct Components {
    labels: Vec<Option<u32>>,
    inner: Vec<u64>,
    totals: Vec<Total>,
}

fn find_components(alloc: Global, p: &Problem, q: u128) -> Result<Components, AllocError>
    requires lack { q ≡ capped_flow (lack p.now) }
    ensures { IfOk result (λ s. AreComponents p.now s.labels.items s.inner.items s.totals.items) }
{
    p.recall_conditions();
    let labels = label_components(alloc, p)?;
    let least = self_roots(alloc, &labels)?;
    let inner = search(alloc, p, &least, q)?;
    let totals = component_totals(alloc, p, &labels, &inner.paths)?;
    Ok(Components {
        labels,
        inner: inner.paths,
        totals,
    })
}

fn carried_floor(
    p: &Problem,
    base: i64,
    labels: &[Option<u32>],
    inner: &[u64],
    totals: &[Total],
    c: usize,
) -> Option<i64>
    requires cell { c < length p.now }
    requires base { base ≡ base_on Low p.now }
    requires components { AreComponents p.now labels.now inner.now totals.now }
    requires unanchored { IsUnanchored Low p.now c }
    ensures { IsBoundOrNone Low p.now c result }
{
    p.recall_conditions();
    match labels[c] {
        Some(m) => {
            let total = totals[m as usize];
            if total.is_positive() {
                return Some(move_out(Side::Low, base, inner[c] + total.longest));
            }
            None
        }
        None => None,
    }
}

// The floor of a cell from its floor by the anchors.
fn floor_of_cell(
    p: &Problem,
    base: i64,
    anchored: Option<i64>,
    found: &Components,
    c: usize,
) -> Option<i64>
    requires cell { c < length p.now }
    requires base { base ≡ base_on Low p.now }
    requires anchored { IsAnchoredOrNone Low p.now c anchored }
    requires components { AreComponents p.now found.now.labels.items found.now.inner.items found.now.totals.items }
    ensures { IsBoundOrNone Low p.now c result }
{
    match anchored {
        Some(floor) => Some(floor),
        None => carried_floor(p, base, &found.labels, &found.inner, &found.totals, c),
    }
}

/// The floor of each cell, cut off just below all heads, from the floors by the anchors; None where it has no floor.
#[tactic(auto, using(crate::proofs::Rooting::each_more))]
pub(crate) fn with_carried_floors(
    alloc: Global,
    p: &Problem,
    base: i64,
    q: u128,
    anchored: &[Option<i64>],
) -> Result<Vec<Option<i64>>, AllocError>
    requires base { base ≡ base_on Low p.now }
    requires lack { q ≡ capped_flow (lack p.now) }
    requires anchored { AreBounds p.now (IsAnchoredOrNone Low p.now) anchored.now }
    ensures { IfOk result (λ floors. AreBounds p.now (IsBoundOrNone Low p.now) floors.items) }
{
    let found = find_components(alloc, p, q)?;
    let mut floors = Vec::with_capacity(alloc, p.len())?;
    for c in 0..p.len() {
        floors.push(floor_of_cell(p, base, anchored[c], &found, c))?;
    }
    Ok(floors)
}
