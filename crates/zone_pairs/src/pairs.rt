// The pairs of zones of a stress period.
ghost use Rattle.std.specs.Prelude.{◌≡◌, ◌<◌, IfOk, OnOk, map, ◌≤◌, All, length};
ghost use Rattle.std.specs.BTreeSet.{IsOrdered};
ghost use Rattle.std.specs.Ordering.{nat_cmp};
ghost use Rattle.model_types.specs.{cell_count, faces, HasSize, IsInGrid, given_heads, is_variable};
ghost use Rattle.zone_pairs.specs.{Gains, pair_of, share_face, zone_pairs, AreZonesOf, joins, joins_by};
ghost use Rattle.std.specs.List.{list_any};

use crate::pair::ZonePair;
use model_types::{Face, FlowModel, GivenHeads, Kind};
use std::alloc::{AllocError, Global};
use std::collections::BTreeSet;

fn is_variable(model: &FlowModel, given: &GivenHeads, cell: u32) -> bool
    requires given { given.now ≡ given_heads model.now given.now.period }
    requires cell { cell < cell_count model.now.grid }
    ensures { result ≡ is_variable model.now given.now.period cell }
{
    matches!(given.kind(model, cell), Kind::Variable)
}

fn add_cells(
    keys: &mut BTreeSet<u32>,
    model: &FlowModel,
    given: &GivenHeads,
    zones: &[u32],
) -> Result<(), AllocError>
    requires size { HasSize model.now.grid }
    requires given { given.now ≡ given_heads model.now given.now.period }
    requires zones { AreZonesOf model.now zones.now }
    ensures { OnOk result (Gains keys.old keys.new (share_face model.now zones.now given.now.period)) }
{
    for cell in 0..model.grid.cell_count() {
        if is_variable(model, given, cell) {
            add_cell(keys, model, zones, cell)?;
        }
    }
    Ok(())
}

fn pair_of(key: u32) -> ZonePair
    ensures { result ≡ pair_of key }
{
    ZonePair {
        from: key / 1000,
        to: key % 1000,
    }
}

// The pairs of these keys, in their order.
fn pairs_of(alloc: Global, keys: &BTreeSet<u32>) -> Result<Vec<ZonePair>, AllocError>
    ensures pairs { IfOk result (λ pairs. pairs.items ≡ map pair_of keys.now.keys) }
    ensures ascend { IsOrdered nat_cmp keys.now }
{
    let mut pairs = Vec::new(alloc);
    for key in keys {
        pairs.push(pair_of(*key))?;
    }
    Ok(pairs)
}

/// The pairs of zones that share a face in the stress period of these given heads, in order.
pub(crate) fn zone_pairs(
    alloc: Global,
    model: &FlowModel,
    given: &GivenHeads,
    zones: &[u32],
) -> Result<Vec<ZonePair>, AllocError>
    requires size { HasSize model.now.grid }
    requires given { given.now ≡ given_heads model.now given.now.period }
    requires zones { AreZonesOf model.now zones.now }
    ensures { IfOk result (λ pairs. pairs.items ≡ zone_pairs model.now zones.now given.now.period) }
{
    let mut keys = BTreeSet::new(alloc);
    add_cells(&mut keys, model, given, zones)?;
    pairs_of(alloc, &keys)
}

// The pairs of zones of a cell's faces, as keys.

// Adds the pair of two zones, the lower first, if neither is 0 and they differ.
fn add_pair(keys: &mut BTreeSet<u32>, a: u32, b: u32) -> Result<(), AllocError>
    requires a { a ≤ 999 }
    requires b { b ≤ 999 }
    ensures { OnOk result (Gains keys.old keys.new (λ z. joins z a b)) }
{
    let (from, to) = if a < b { (a, b) } else { (b, a) };
    if 0 < from && from < to {
        keys.insert(from * 1000 + to)?;
    }
    Ok(())
}

// Adds the pair of a face to an active neighbour.
fn add_face(
    keys: &mut BTreeSet<u32>,
    model: &FlowModel,
    zones: &[u32],
    cell: u32,
    face: Option<Face>,
) -> Result<(), AllocError>
    requires zones { AreZonesOf model.now zones.now }
    requires cell { cell < cell_count model.now.grid }
    requires face { IsInGrid model.now.grid face }
    ensures { OnOk result (Gains keys.old keys.new (λ z. joins_by model.now zones.now z cell face)) }
{
    match face {
        Some(face) => {
            if model.is_active(face.end) {
                add_pair(keys, zones[cell as usize], zones[face.end as usize])?;
            }
            Ok(())
        }
        None => Ok(()),
    }
}

fn add_faces(
    keys: &mut BTreeSet<u32>,
    model: &FlowModel,
    zones: &[u32],
    cell: u32,
    faces: &[Option<Face>],
) -> Result<(), AllocError>
    requires zones { AreZonesOf model.now zones.now }
    requires cell { cell < cell_count model.now.grid }
    requires faces { All (IsInGrid model.now.grid) faces.now }
    ensures { OnOk result (Gains keys.old keys.new (λ z. list_any (joins_by model.now zones.now z cell) faces.now)) }
{
    for face in faces {
        add_face(keys, model, zones, cell, *face)?;
    }
    Ok(())
}

/// Adds the pairs of a variable cell's faces.
pub(crate) fn add_cell(
    keys: &mut BTreeSet<u32>,
    model: &FlowModel,
    zones: &[u32],
    cell: u32,
) -> Result<(), AllocError>
    requires size { HasSize model.now.grid }
    requires zones { AreZonesOf model.now zones.now }
    requires cell { cell < cell_count model.now.grid }
    ensures { OnOk result (Gains keys.old keys.new (λ z. list_any (joins_by model.now zones.now z cell) (faces model.now.grid cell))) }
{
    add_faces(keys, model, zones, cell, &model.grid.faces(cell))
}
