// The fall to a cell along its branches. `heads` has one bound for each cell of the grid.
ghost use Rattle.std.specs.Prelude.{◌≡◌, ◌<◌, ◌↔◌, ◌⊎◌, ◌^◌, ◌-ℤ◌, IsTrue, All, length};
ghost use Rattle.decimal_input.specs.{number};
ghost use Rattle.decimal_input.specs.Fractions.{AtMost};
ghost use Rattle.cell_balance.specs.{minus};
ghost use Rattle.step_problem.specs.{lower_at, upper_at, IsMagnitudeAtMost};
ghost use Rattle.model_types.specs.{cell_count, bottom_at, top_at, faces, IsInGrid, IsModel, HasSize};
ghost use Rattle.problem_builder.specs.{AreGridHeads};
ghost use Rattle.water_table.specs.{is_convertible};
ghost use Rattle.gentle_heads.specs.{FallsAlong, FallsFrom, FallsThrough, lower_head, upper_head};

use crate::compare::is_at_or_below;
use model_types::layers::int_at;
use model_types::{Axis, Face, FlowModel};
use step_problem::Bound;
use water_table::ConvertibleLayers;

pub(crate) fn is_convertible(model: &FlowModel, layers: &ConvertibleLayers, cell: u32) -> bool
    requires size { HasSize model.now.grid }
    ensures { result ≡ is_convertible model.now layers.now cell }
{
    int_at(layers.laytyp.as_slice(), cell / model.grid.layer_size()) != 0
}

// The lower and the upper head of a cell.
pub(crate) fn low_of(heads: &[Bound], cell: u32) -> i128
    requires { cell < length heads.now }
    ensures value { result ≡ lower_at heads.now cell }
    ensures small { IsMagnitudeAtMost result (2 ^ 63) }
{
    heads[cell as usize].low as i128
}

pub(crate) fn high_of(heads: &[Bound], cell: u32) -> i128
    requires { cell < length heads.now }
    ensures value { result ≡ upper_at heads.now cell }
    ensures small { IsMagnitudeAtMost result (2 ^ 63) }
{
    heads[cell as usize].high as i128
}

// A head less the fall to it from another one.
fn less_fall(low: i128, from: i128) -> i128
    requires low { IsMagnitudeAtMost low (2 ^ 63) }
    requires from { IsMagnitudeAtMost from (2 ^ 63) }
    ensures value { result ≡ low -ℤ (from -ℤ low) }
    ensures small { IsMagnitudeAtMost result (2 ^ 100) }
{
    let fall = from - low;
    low - fall
}

// Whether a cell is full at its lower head, or the fall to it from cell n is within what of it is wet.
fn falls_to(model: &FlowModel, heads: &[Bound], n: u32, c: u32) -> bool
    requires model { IsModel model.now }
    requires heads { AreGridHeads model.now heads.now }
    requires from { n < cell_count model.now.grid }
    requires cell { c < cell_count model.now.grid }
    ensures { IsTrue result ↔ (AtMost (number (top_at model.now c)) (lower_head heads.now c)
        ⊎ AtMost (minus (upper_head heads.now n) (lower_head heads.now c)) (minus (lower_head heads.now c) (number (bottom_at model.now c)))) }
{
    let low = low_of(heads, c);
    if is_at_or_below(model.top_at(c), low) {
        return true;
    }
    let from = high_of(heads, n);
    is_at_or_below(model.bottom_at(c), less_fall(low, from))
}

// Whether the fall from cell n to cell c along a row or a column is gentle.
fn falls_from(
    model: &FlowModel,
    layers: &ConvertibleLayers,
    heads: &[Bound],
    n: u32,
    c: u32,
) -> bool
    requires model { IsModel model.now }
    requires heads { AreGridHeads model.now heads.now }
    requires from { n < cell_count model.now.grid }
    requires cell { c < cell_count model.now.grid }
    ensures { IsTrue result ↔ FallsFrom model.now layers.now heads.now n c }
{
    if is_convertible(model, layers, c) {
        falls_to(model, heads, n, c)
    } else {
        true
    }
}

fn falls_along(
    model: &FlowModel,
    layers: &ConvertibleLayers,
    heads: &[Bound],
    face: Face,
    c: u32,
) -> bool
    requires model { IsModel model.now }
    requires heads { AreGridHeads model.now heads.now }
    requires from { face.end < cell_count model.now.grid }
    requires cell { c < cell_count model.now.grid }
    ensures { IsTrue result ↔ FallsAlong model.now layers.now heads.now c face.axis face.end }
{
    match face.axis {
        Axis::Row => falls_from(model, layers, heads, face.end, c),
        Axis::Column => falls_from(model, layers, heads, face.end, c),
        Axis::Vertical => true,
    }
}

// Whether the fall through a face is gentle, if an active cell lies at its other end.
fn falls_through(
    model: &FlowModel,
    layers: &ConvertibleLayers,
    heads: &[Bound],
    face: Option<Face>,
    c: u32,
) -> bool
    requires model { IsModel model.now }
    requires heads { AreGridHeads model.now heads.now }
    requires face { IsInGrid model.now.grid face }
    requires cell { c < cell_count model.now.grid }
    ensures { IsTrue result ↔ FallsThrough model.now layers.now heads.now c face }
{
    match face {
        Some(face) if model.is_active(face.end) => falls_along(model, layers, heads, face, c),
        _ => true,
    }
}

pub(crate) fn falls(model: &FlowModel, layers: &ConvertibleLayers, heads: &[Bound], c: u32) -> bool
    requires model { IsModel model.now }
    requires heads { AreGridHeads model.now heads.now }
    requires cell { c < cell_count model.now.grid }
    ensures { IsTrue result ↔ All (FallsThrough model.now layers.now heads.now c) (faces model.now.grid c) }
{
    let faces = model.grid.faces(c);
    for face in &faces {
        if !falls_through(model, layers, heads, *face, c) {
            return false;
        }
    }
    true
}
