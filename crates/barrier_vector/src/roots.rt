// The roots of the searches: anchored cells, and the least cells of components.
ghost use Rattle.std.specs.Prelude.{◌≡◌, ℕ, ◌<◌, ◌≤◌, ◌^◌, length, IfOk, None, max, slice_index};
ghost use Rattle.std.specs.Fn.{FnReturnsAt};
ghost use Rattle.barrier_vector.specs.{ceil_over, anchor_on, greatest, anchor_drop, self_drop, HasEach, AreSelfDrops};

use crate::search::drop_over;
use std::alloc::{AllocError, Global};
use step_problem::{Cell, Side};

// `lower` is the lower conductance of an entry.
fn greatest_lower<E, F: Fn(&E) -> u64>(entries: &[E], lower: F) -> u64
    requires { F.IsAlwaysCallable lower }
    ensures { (lo : E → ℕ) → ((x : E) (r : ℕ) → FnReturnsAt F.Fn lower x r → r ≡ lo x) → result ≡ greatest lo entries.now }
{
    let mut best = 0;
    for x in entries {
        best = lower(x).max(best);
    }
    best
}

/// The greatest lower conductance of a cell's anchors.
pub(crate) fn greatest_anchor(side: Side, cell: &Cell) -> u64
    ensures { result ≡ anchor_on side cell.now }
{
    let fixed = greatest_lower(&cell.fixed, |x| x.lo);
    match side {
        Side::Low => fixed,
        Side::High => {
            let rivers = greatest_lower(&cell.rivers, |x| x.lo);
            let drains = greatest_lower(&cell.drains, |x| x.lo);
            fixed.max(rivers.max(drains))
        }
    }
}

// The drop over a lower conductance.
#[derive(Clone, Copy)]
struct KnownDrop {
    lo: u64,
    drop: u128,
}

// The drop over `lo`, by a division where it is not the known one.
fn drop_by(known: KnownDrop, lo: u64, q: u128) -> KnownDrop
    requires q { q ≤ 2 ^ 126 }
    requires lo { 0 < lo }
    requires known { known.drop ≡ ceil_over q known.lo }
    ensures lo { result.lo ≡ lo }
    ensures drop { result.drop ≡ ceil_over q lo }
{
    if known.lo == lo {
        return known;
    }
    KnownDrop {
        lo,
        drop: drop_over(q, lo),
    }
}

#[tactic(auto, using(crate::proofs::Rooting::drop_of))]
fn anchor_drop(known: &mut KnownDrop, lo: u64, q: u128) -> Option<u128>
    requires q { q ≤ 2 ^ 126 }
    requires known { known.old.drop ≡ ceil_over q known.old.lo }
    ensures known { known.new.drop ≡ ceil_over q known.new.lo }
    ensures drop { result ≡ anchor_drop q lo }
{
    if lo == 0 {
        return None;
    }
    *known = drop_by(*known, lo, q);
    Some(known.drop)
}

/// The own drops of the anchored cells, by the greatest anchor of each cell. Neighbours often have equal ones, so the last drop is kept.
#[tactic(auto, using(crate::proofs::Rooting::each_more))]
pub(crate) fn anchor_roots(
    alloc: Global,
    anchors: &[u64],
    q: u128,
) -> Result<Vec<Option<u128>>, AllocError>
    requires { q ≤ 2 ^ 126 }
    ensures { IfOk result (λ own. HasEach None (λ c o. o ≡ anchor_drop q (slice_index anchors.now c)) (length anchors.now) own.items) }
{
    let mut own = Vec::with_capacity(alloc, anchors.len())?;
    let mut known = KnownDrop {
        lo: 1,
        drop: drop_over(q, 1),
    };
    for c in 0..anchors.len() {
        own.push(anchor_drop(&mut known, anchors[c], q))?;
    }
    Ok(own)
}

#[tactic(auto, using(crate::proofs::Gathering::label_true, crate::proofs::Gathering::label_is))]
fn self_drop(label: Option<u32>, c: u32) -> Option<u128>
    ensures { result ≡ self_drop label c }
{
    if label == Some(c) { Some(0) } else { None }
}

/// The cells that are labelled with themselves, without drops.
#[tactic(auto, using(crate::proofs::Rooting::each_more))]
pub(crate) fn self_roots(
    alloc: Global,
    labels: &[Option<u32>],
) -> Result<Vec<Option<u128>>, AllocError>
    requires { length labels.now < 2 ^ 32 }
    ensures { IfOk result (λ own. AreSelfDrops labels.now (length labels.now) own.items) }
{
    let mut own = Vec::with_capacity(alloc, labels.len())?;
    for c in 0..labels.len() {
        own.push(self_drop(labels[c], c as u32))?;
    }
    Ok(own)
}
