// What a walk over the faces of a step works with.
ghost use Rattle.std.specs.Prelude.{◌≡◌, ◌<◌, ℕ, length, slice_index, IfOk};
ghost use Rattle.step_problem.specs.{entries_at};
ghost use Rattle.zone_flows.specs.Faces.{AreOwnZones, IsWalk};

use std::alloc::{AllocError, Global};
use step_problem::{Bound, Problem};

/// A step's problem, the zone of each cell of the grid and the bounds of its head, and the zone of each variable cell, by
/// index.
#[derive(Drop)]
pub(crate) struct Walk<'a> {
    pub problem: &'a Problem,
    pub zones: &'a [u32],
    pub heads: &'a [Bound],
    pub own: &'a [u32],
    ghost fits: { IsWalk problem.now zones.now own.now heads.now },
}

impl<'a> Walk<'a> {
    /// The number of the cell at this index.
    pub(crate) fn id_at(&self, index: usize) -> u32
        requires { index < length self.now.problem.now }
        ensures { result ≡ (entries_at self.now.problem.now index).id }
    {
        self.problem.cell(index).id
    }

    /// The zone of the cell at this index.
    pub(crate) fn zone_at(&self, index: usize) -> u32
        requires { index < length self.now.problem.now }
        ensures { result ≡ slice_index self.now.zones.now (entries_at self.now.problem.now index).id }
    {
        self.own[index]
    }
}

/// The zone of each variable cell, by index.
pub(crate) fn zones_by_index(
    alloc: Global,
    p: &Problem,
    zones: &[u32],
) -> Result<Vec<u32>, AllocError>
    requires { (c : ℕ) → c < length p.now → (entries_at p.now c).id < length zones.now }
    ensures { IfOk result (λ own. AreOwnZones p.now zones.now own.items) }
{
    let mut own = Vec::with_capacity(alloc, p.len())?;
    for c in 0..p.len() {
        own.push(zones[p.cell(c).id as usize])?;
    }
    Ok(own)
}
