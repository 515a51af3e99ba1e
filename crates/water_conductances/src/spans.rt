// The bounds of saturated thickness.
ghost use Rattle.std.specs.Prelude.{◌≡◌, ◌<◌, ◌<ℤ◌, ◌≤ℤ◌, ◌*ℤ◌, ◌^◌, length, pos, true};
ghost use Rattle.std.specs.Int.{int_min};
ghost use Rattle.step_problem.specs.{IsMagnitudeAtMost};
ghost use Rattle.model_types.specs.{IsModel, HasSize, cell_count, is_active};
ghost use Rattle.problem_builder.specs.{AreGridHeads, bound_at};
ghost use Rattle.conductance_bounds.specs.{AreThick};
ghost use Rattle.water_table.specs.{is_convertible};
ghost use Rattle.water_conductances.specs.{AreOrdered, has_depth, least_units, most_units, saturated_span, span_of_units};

use crate::edges::{ceiling_of, floor_of};
use conductance_bounds::{Span, thickness};
use model_types::FlowModel;
use model_types::layers::int_at;
use scaled_decimal::{of_units_dn, of_units_up};
use step_problem::Bound;
use water_table::ConvertibleLayers;

/// Whether LAYTYP of a cell's layer isn't 0.
pub fn is_convertible(model: &FlowModel, layers: &ConvertibleLayers, cell: u32) -> bool
    requires size { HasSize model.now.grid }
    ensures { result ≡ is_convertible model.now layers.now cell }
{
    int_at(layers.laytyp.as_slice(), cell / model.grid.layer_size()) != 0
}

// A head in units of 10^-18, or an elevation if that is lower.
fn lower_of(head: i64, elevation: i128) -> i128
    requires elevation { IsMagnitudeAtMost elevation (2 ^ 126) }
    ensures value { result ≡ int_min (head *ℤ pos (10 ^ 9)) elevation }
    ensures range { IsMagnitudeAtMost result (2 ^ 126) }
    ensures most { result ≤ℤ pos (2 ^ 93) }
{
    (head as i128 * 1_000_000_000).min(elevation)
}

fn bound_at(heads: &[Bound], cell: u32) -> Bound
    requires cell { cell < length heads.now }
    ensures { result ≡ bound_at heads.now cell }
{
    heads[cell as usize]
}

fn least_units(model: &FlowModel, heads: &[Bound], cell: u32) -> i128
    requires model { IsModel model.now }
    requires heads { AreGridHeads model.now heads.now }
    requires cell { cell < cell_count model.now.grid }
    requires active { is_active model.now cell ≡ true }
    ensures { result ≡ least_units model.now heads.now cell }
{
    let top = floor_of(model.top_at(cell));
    let bottom = ceiling_of(model.bottom_at(cell));
    lower_of(bound_at(heads, cell).low, top) - bottom
}

fn most_units(model: &FlowModel, heads: &[Bound], cell: u32) -> i128
    requires model { IsModel model.now }
    requires heads { AreGridHeads model.now heads.now }
    requires cell { cell < cell_count model.now.grid }
    requires active { is_active model.now cell ≡ true }
    ensures { result ≡ most_units model.now heads.now cell }
{
    let top = ceiling_of(model.top_at(cell));
    let bottom = floor_of(model.bottom_at(cell));
    lower_of(bound_at(heads, cell).high, top) - bottom
}

/// Whether the lower bound of a cell's saturated thickness is above 0.
pub fn has_depth(model: &FlowModel, layers: &ConvertibleLayers, heads: &[Bound], cell: u32) -> bool
    requires model { IsModel model.now }
    requires heads { AreGridHeads model.now heads.now }
    requires cell { cell < cell_count model.now.grid }
    requires active { is_active model.now cell ≡ true }
    ensures { result ≡ has_depth model.now layers.now heads.now cell }
{
    if !is_convertible(model, layers, cell) {
        return true;
    }
    least_units(model, heads, cell) > 0
}

// The decimals of two numbers of units.
fn span_of(least: i128, most: i128) -> Span
    requires some { pos 0 <ℤ least }
    requires order { least ≤ℤ most }
    ensures is { result ≡ span_of_units least most }
    ensures thick { AreThick result.lo result.hi }
{
    Span {
        lo: of_units_dn(least.unsigned_abs(), 18),
        hi: of_units_up(most.unsigned_abs(), 18),
    }
}

/// The decimals between which the saturated thickness of an active cell lies.
pub fn saturated_span(
    model: &FlowModel,
    layers: &ConvertibleLayers,
    heads: &[Bound],
    cell: u32,
) -> Span
    requires model { IsModel model.now }
    requires heads { AreGridHeads model.now heads.now }
    requires ordered { AreOrdered model.now heads.now }
    requires cell { cell < cell_count model.now.grid }
    requires active { is_active model.now cell ≡ true }
    requires depth { has_depth model.now layers.now heads.now cell ≡ true }
    ensures is { result ≡ saturated_span model.now layers.now heads.now cell }
    ensures thick { AreThick result.lo result.hi }
{
    if is_convertible(model, layers, cell) {
        let least = least_units(model, heads, cell);
        span_of(least, most_units(model, heads, cell))
    } else {
        thickness(model.top_at(cell), model.bottom_at(cell))
    }
}
