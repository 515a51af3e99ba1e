// The bounds of the conductance of a face.
ghost use Rattle.std.specs.Prelude.{◌≡◌, ◌+◌, ◌<◌, ◌≤◌, true};
ghost use Rattle.conductance_bounds.specs.{AreThick, IsColHalf, IsHalf, IsVertHalf, capped_pair};
ghost use Rattle.model_types.specs.declared.face.Axis.TheVariants.{Row, Column, Vertical};
ghost use Rattle.model_types.specs.{HasSize, IsModel, cell_count, is_active, is_ratio, stride};
ghost use Rattle.problem_builder.specs.{AreGridHeads, Filled, IsBedBelow, IsBranch, no_span};
ghost use Rattle.water_conductances.specs.{AreOrdered, column_half, formula_of, layer_half, pair_at_heads, row_half};

use crate::spans::{has_depth, saturated_span};
use conductance_bounds::{
    Bed, ColHalf, Half, Pair, Span, VertHalf, col_branch, row_branch, vert_branch,
};
use model_types::layers::{dec_at, int_at};
use model_types::{Axis, FlowModel};
use problem_builder::faces::{NO_PAIR, span_at};
use problem_builder::start::capped_pair;
use step_problem::Bound;
use water_table::ConvertibleLayers;

fn row_half(model: &FlowModel, thick: Span, cell: u32) -> Half
    requires model { IsModel model.now }
    requires cell { cell < cell_count model.now.grid }
    requires active { is_active model.now cell ≡ true }
    requires thick { AreThick thick.lo thick.hi }
    ensures is { result ≡ row_half model.now thick cell }
    ensures fits { IsHalf result }
{
    let along = model.delr_at(cell);
    let hk = dec_at(model.hk.as_slice(), cell);
    Half {
        along,
        hk,
        thick_lo: thick.lo,
        thick_hi: thick.hi,
    }
}

fn column_half(model: &FlowModel, thick: Span, cell: u32) -> ColHalf
    requires model { IsModel model.now }
    requires cell { cell < cell_count model.now.grid }
    requires active { is_active model.now cell ≡ true }
    requires thick { AreThick thick.lo thick.hi }
    ensures is { result ≡ column_half model.now thick cell }
    ensures fits { IsColHalf result }
{
    let along = model.delc_at(cell);
    let hk = dec_at(model.hk.as_slice(), cell);
    let hani = dec_at(model.hani.as_slice(), cell);
    ColHalf {
        along,
        hk,
        hani,
        thick_lo: thick.lo,
        thick_hi: thick.hi,
    }
}

fn is_ratio(model: &FlowModel, cell: u32) -> bool
    requires { HasSize model.now.grid }
    ensures { result ≡ is_ratio model.now cell }
{
    int_at(model.layvka.as_slice(), cell / model.grid.layer_size()) != 0
}

fn layer_half(model: &FlowModel, thick: Span, cell: u32) -> VertHalf
    requires model { IsModel model.now }
    requires layers { 1 < model.now.grid.layers }
    requires cell { cell < cell_count model.now.grid }
    requires active { is_active model.now cell ≡ true }
    requires thick { AreThick thick.lo thick.hi }
    ensures is { result ≡ layer_half model.now thick cell }
    ensures fits { IsVertHalf result }
{
    let hk = dec_at(model.hk.as_slice(), cell);
    let vka = dec_at(model.vka.as_slice(), cell);
    let ratio = is_ratio(model, cell);
    VertHalf {
        hk,
        vka,
        ratio,
        thick_lo: thick.lo,
        thick_hi: thick.hi,
    }
}

fn row_pair(model: &FlowModel, x: Span, y: Span, first: u32, s: u32) -> Pair
    requires model { IsModel model.now }
    requires branch { IsBranch model.now Row first }
    requires here { AreThick x.lo x.hi }
    requires there { AreThick y.lo y.hi }
    requires digits { s ≤ 18 }
    ensures { result ≡ capped_pair (formula_of model.now Row x y first) s }
{
    let a = row_half(model, x, first);
    let b = row_half(model, y, first + 1);
    capped_pair(row_branch(&a, &b, model.delc_at(first), s))
}

fn column_pair(model: &FlowModel, x: Span, y: Span, first: u32, s: u32) -> Pair
    requires model { IsModel model.now }
    requires branch { IsBranch model.now Column first }
    requires here { AreThick x.lo x.hi }
    requires there { AreThick y.lo y.hi }
    requires digits { s ≤ 18 }
    ensures { result ≡ capped_pair (formula_of model.now Column x y first) s }
{
    let a = column_half(model, x, first);
    let b = column_half(model, y, first + model.grid.cols);
    capped_pair(col_branch(&a, &b, model.delr_at(first), s))
}

fn vertical_pair(model: &FlowModel, beds: &[Span], x: Span, y: Span, first: u32, s: u32) -> Pair
    requires model { IsModel model.now }
    requires branch { IsBranch model.now Vertical first }
    requires beds { Filled (IsBedBelow model.now) no_span (cell_count model.now.grid) beds.now }
    requires here { AreThick x.lo x.hi }
    requires there { AreThick y.lo y.hi }
    requires digits { s ≤ 18 }
    ensures { result ≡ capped_pair (formula_of model.now Vertical x y first) s }
{
    let a = layer_half(model, x, first);
    let b = layer_half(model, y, first + model.grid.layer_size());
    let span = span_at(beds, first);
    let vkcb = dec_at(model.vkcb.as_slice(), first);
    let bed = Bed {
        thick_lo: span.lo,
        thick_hi: span.hi,
        vkcb,
    };
    capped_pair(vert_branch(&a, &b, &bed, model.delr_at(first), model.delc_at(first), s))
}

// The cell after this one along an axis.
fn next_along(model: &FlowModel, axis: Axis, cell: u32) -> u32
    requires size { HasSize model.now.grid }
    requires within { cell + stride model.now.grid axis < cell_count model.now.grid }
    ensures { result ≡ cell + stride model.now.grid axis }
{
    match axis {
        Axis::Row => cell + 1,
        Axis::Column => cell + model.grid.cols,
        Axis::Vertical => cell + model.grid.layer_size(),
    }
}

/// The bounds of the conductance of a face with s digits, at all heads within these bounds, one for each cell of the grid. `beds` has the thicknesses of
/// the beds below all cells. Where the lower bound of a saturated thickness is 0 both are 0.
#[tactic(auto, using(crate::proofs::Pairs::pair_is, crate::proofs::Pairs::none_here, crate::proofs::Pairs::none_there))]
pub fn pair_at(
    model: &FlowModel,
    layers: &ConvertibleLayers,
    beds: &[Span],
    heads: &[Bound],
    axis: Axis,
    first: u32,
    s: u32,
) -> Pair
    requires model { IsModel model.now }
    requires branch { IsBranch model.now axis first }
    requires beds { Filled (IsBedBelow model.now) no_span (cell_count model.now.grid) beds.now }
    requires heads { AreGridHeads model.now heads.now }
    requires ordered { AreOrdered model.now heads.now }
    requires digits { s ≤ 18 }
    ensures { result ≡ pair_at_heads model.now layers.now heads.now s axis first }
{
    let second = next_along(model, axis, first);
    if !has_depth(model, layers, heads, first) {
        return NO_PAIR;
    }
    if !has_depth(model, layers, heads, second) {
        return NO_PAIR;
    }
    let x = saturated_span(model, layers, heads, first);
    let y = saturated_span(model, layers, heads, second);
    match axis {
        Axis::Row => row_pair(model, x, y, first, s),
        Axis::Column => column_pair(model, x, y, first, s),
        Axis::Vertical => vertical_pair(model, beds, x, y, first, s),
    }
}
