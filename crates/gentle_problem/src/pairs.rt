// The bounds of the conductances of all faces.
ghost use Rattle.std.specs.Prelude.{◌<◌, ◌≤◌, IfOk};
ghost use Rattle.model_types.specs.{IsModel, cell_count};
ghost use Rattle.problem_builder.specs.{AreGridHeads, Filled, IsBedBelow, no_pair, no_span};
ghost use Rattle.water_conductances.specs.{AreOrdered};
ghost use Rattle.gentle_problem.specs.{ArePairsAt, HasPairAt};

use conductance_bounds::{Pair, Span};
use model_types::{Axis, FlowModel, Listed};
use problem_builder::FacePairs;
use problem_builder::faces::{NO_PAIR, is_branch};
use std::alloc::{AllocError, Global};
use step_problem::Bound;
use water_conductances::pair_at;
use water_table::ConvertibleLayers;

// The bounds of the conductance from a cell to the next one along an axis, if both are active.
fn pair_after(
    model: &FlowModel,
    layers: &ConvertibleLayers,
    beds: &[Span],
    heads: &[Bound],
    axis: Axis,
    cell: u32,
    s: u32,
) -> Pair
    requires model { IsModel model.now }
    requires cell { cell < cell_count model.now.grid }
    requires beds { Filled (IsBedBelow model.now) no_span (cell_count model.now.grid) beds.now }
    requires heads { AreGridHeads model.now heads.now }
    requires ordered { AreOrdered model.now heads.now }
    requires digits { s ≤ 18 }
    ensures { HasPairAt model.now layers.now heads.now s axis cell result }
{
    if is_branch(model, axis, cell) {
        pair_at(model, layers, beds, heads, axis, cell, s)
    } else {
        NO_PAIR
    }
}

fn pairs_along(
    alloc: Global,
    model: &FlowModel,
    layers: &ConvertibleLayers,
    beds: &[Span],
    heads: &[Bound],
    axis: Axis,
    s: u32,
) -> Result<Vec<Pair>, AllocError>
    requires model { IsModel model.now }
    requires beds { Filled (IsBedBelow model.now) no_span (cell_count model.now.grid) beds.now }
    requires heads { AreGridHeads model.now heads.now }
    requires ordered { AreOrdered model.now heads.now }
    requires digits { s ≤ 18 }
    ensures { IfOk result (λ v. Filled (HasPairAt model.now layers.now heads.now s axis) no_pair (cell_count model.now.grid) v.items) }
{
    let mut pairs = Vec::new(alloc);
    let count = model.grid.cell_count();
    for cell in 0..count {
        pairs.push(pair_after(model, layers, beds, heads, axis, cell, s))?;
    }
    Ok(pairs)
}

/// The bounds of the conductances of all faces with s digits, at all heads within these bounds, one for each cell of the grid. `beds` has the thicknesses
/// of the beds below all cells.
pub fn pairs_at(
    alloc: Global,
    model: &FlowModel,
    layers: &ConvertibleLayers,
    beds: &[Span],
    heads: &[Bound],
    s: u32,
) -> Result<FacePairs, AllocError>
    requires model { IsModel model.now }
    requires beds { Filled (IsBedBelow model.now) no_span (cell_count model.now.grid) beds.now }
    requires heads { AreGridHeads model.now heads.now }
    requires ordered { AreOrdered model.now heads.now }
    requires digits { s ≤ 18 }
    ensures { IfOk result (ArePairsAt model.now layers.now heads.now s) }
{
    let row = pairs_along(alloc, model, layers, beds, heads, Axis::Row, s)?;
    let column = pairs_along(alloc, model, layers, beds, heads, Axis::Column, s)?;
    let vertical = pairs_along(alloc, model, layers, beds, heads, Axis::Vertical, s)?;
    Ok(FacePairs {
        row: Listed::new(row),
        column: Listed::new(column),
        vertical: Listed::new(vertical),
    })
}
