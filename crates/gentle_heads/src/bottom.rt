// Whether a cell below another one is full where one of the two is convertible. `heads` has one bound for each cell of the grid.
ghost use Rattle.std.specs.Prelude.{◌≡◌, ◌<◌, ◌↔◌, ◌||◌, IsTrue, true};
ghost use Rattle.decimal_input.specs.{number};
ghost use Rattle.decimal_input.specs.Fractions.{AtMost};
ghost use Rattle.model_types.specs.{cell_count, is_active, bottom_at, IsModel, HasSize};
ghost use Rattle.problem_builder.specs.{AreGridHeads};
ghost use Rattle.water_table.specs.{is_convertible};
ghost use Rattle.gentle_heads.specs.{IsOverBottom, lower_head};

use crate::branch::{is_convertible, low_of};
use crate::compare::is_at_or_below;
use model_types::FlowModel;
use step_problem::Bound;
use water_table::ConvertibleLayers;

fn either_converts(model: &FlowModel, layers: &ConvertibleLayers, a: u32, b: u32) -> bool
    requires size { HasSize model.now.grid }
    ensures { result ≡ (is_convertible model.now layers.now a || is_convertible model.now layers.now b) }
{
    if is_convertible(model, layers, a) {
        true
    } else {
        is_convertible(model, layers, b)
    }
}

// Where one of the two is convertible, whether the lower head of cell c is at or above the bottom of the cell above it.
fn over_upper(
    model: &FlowModel,
    layers: &ConvertibleLayers,
    heads: &[Bound],
    upper: u32,
    c: u32,
) -> bool
    requires model { IsModel model.now }
    requires heads { AreGridHeads model.now heads.now }
    requires cell { c < cell_count model.now.grid }
    ensures { IsTrue result ↔ ((is_convertible model.now layers.now upper || is_convertible model.now layers.now c) ≡ true →
        AtMost (number (bottom_at model.now upper)) (lower_head heads.now c)) }
{
    if either_converts(model, layers, upper, c) {
        is_at_or_below(model.bottom_at(upper), low_of(heads, c))
    } else {
        true
    }
}

// The same where the cell above is active.
fn over_active(
    model: &FlowModel,
    layers: &ConvertibleLayers,
    heads: &[Bound],
    upper: u32,
    c: u32,
) -> bool
    requires model { IsModel model.now }
    requires heads { AreGridHeads model.now heads.now }
    requires cell { c < cell_count model.now.grid }
    ensures { IsTrue result ↔ (is_active model.now upper ≡ true →
        (is_convertible model.now layers.now upper || is_convertible model.now layers.now c) ≡ true →
        AtMost (number (bottom_at model.now upper)) (lower_head heads.now c)) }
{
    if model.is_active(upper) {
        over_upper(model, layers, heads, upper, c)
    } else {
        true
    }
}

pub(crate) fn is_over_bottom(
    model: &FlowModel,
    layers: &ConvertibleLayers,
    heads: &[Bound],
    c: u32,
) -> bool
    requires model { IsModel model.now }
    requires heads { AreGridHeads model.now heads.now }
    requires cell { c < cell_count model.now.grid }
    ensures { IsTrue result ↔ IsOverBottom model.now layers.now heads.now c }
{
    let layer = model.grid.layer_size();
    if c < layer {
        return true;
    }
    over_active(model, layers, heads, c - layer, c)
}
