// The flows between zones in one step.
ghost use Rattle.std.specs.Prelude.{◌≡◌, ◌≤◌, ◌<◌, ℕ, All, length, IfOk};
ghost use Rattle.step_problem.specs.{entries_at, lower_at, upper_at};
ghost use Rattle.budget_bounds.specs.{AreHeads};
ghost use Rattle.zone_flows.specs.{Returns, EncloseEveryStep, faces, zone_flows};

use crate::faces::add_faces;
use crate::table::{Table, flows_in_order};
use crate::walk::{Walk, zones_by_index};
use std::alloc::Global;
use std::collections::BTreeMap;
use step_problem::{Bound, BoundFault, Problem, ZoneFlow};

/// The bounds of the flows between zones in one time step, in units of 10^-(s+9) of the model's flow, where the conductances
/// of `p` are in units of 10^-s: one for each pair of zones that share a face with a variable cell, in order of the pairs.
/// `zones` has the zone of each cell of the grid, 0 to 999, where 0 is none; `heads` has the bounds of its head, in units of
/// 10^-9. FlowTooLarge (23) at the first pair where, in either sum, the magnitudes of the summands reach 2^126.
#[tactic(auto, using(crate::proofs::ListedFlows::ok_encloses, crate::proofs::Tables::flows_are))]
pub fn zone_flows(
    alloc: Global,
    p: &Problem,
    zones: &[u32],
    heads: &[Bound],
) -> Result<Vec<ZoneFlow>, BoundFault>
    requires zones { All (λ z. z ≤ 999) zones.now }
    requires heads { All AreHeads heads.now }
    requires same { length heads.now ≡ length zones.now }
    requires ids { (c : ℕ) → c < length p.now → (entries_at p.now c).id < length zones.now }
    requires sources { (c : ℕ) → c < length p.now → All (λ x. x.source < length zones.now) (entries_at p.now c).fixed }
    ensures flows { Returns (zone_flows (faces zones.now (lower_at heads.now) (upper_at heads.now) p.now)) result }
    // At all heads between these, in every exact step that the problem encloses, each exact flow lies between its bounds.
    ensures encloses { IfOk result (λ flows. EncloseEveryStep p.now zones.now (lower_at heads.now) (upper_at heads.now) flows.items) }
{
    p.recall_conditions();
    let own = zones_by_index(alloc, p, zones)?;
    let walk = Walk {
        problem: p,
        zones,
        heads,
        own: own.as_slice(),
    };
    let mut table = Table {
        map: BTreeMap::new(alloc),
    };
    add_faces(&mut table, &walk)?;
    flows_in_order(alloc, &table)
}
