// The conductances of faces, by their first cells.
ghost use Rattle.std.specs.Prelude.{◌≡◌, ◌+◌, ◌<◌, ◌≤◌, true, false, IfOk, IsTrue, length};
ghost use Rattle.conductance_bounds.specs.{IsHalf, IsColHalf, IsVertHalf};
ghost use Rattle.model_types.specs.declared.face.Axis.TheVariants.{Row, Column, Vertical};
ghost use Rattle.model_types.specs.{cell_count, has_after, stride, HasSize, is_active, is_ratio, IsModel};
ghost use Rattle.problem_builder.specs.{Filled, no_span, no_pair, span_in, IsThickness, IsBedBelow, IsBranch, HasConductance, row_half, column_half};
ghost use Rattle.problem_builder.specs.{layer_half, face_pair};

use crate::start::capped_pair;
use conductance_bounds::{
    Bed, ColHalf, Half, Pair, Span, VertHalf, col_branch, row_branch, vert_branch,
};
use decimal_input::dec::Dec;
use model_types::layers::{dec_at, int_at};
use model_types::{Axis, FlowModel};
use std::alloc::{AllocError, Global};

/// The pair of a face without a conductance.
pub const NO_PAIR: Pair = Pair { lo: 0, hi: 0 };

/// The thickness of a cell.
pub fn span_at(spans: &[Span], cell: u32) -> Span
    requires { cell < length spans.now }
    ensures { result ≡ span_in spans.now cell }
{
    spans[cell as usize]
}

fn row_half(model: &FlowModel, thick: &[Span], cell: u32) -> Half
    requires model { IsModel model.now }
    requires cell { cell < cell_count model.now.grid }
    requires active { is_active model.now cell ≡ true }
    requires thick { Filled (IsThickness model.now) no_span (cell_count model.now.grid) thick.now }
    ensures is { result ≡ row_half model.now cell }
    ensures fits { IsHalf result }
{
    let along = model.delr_at(cell);
    let hk = dec_at(model.hk.as_slice(), cell);
    let thickness = span_at(thick, cell);
    Half {
        along,
        hk,
        thick_lo: thickness.lo,
        thick_hi: thickness.hi,
    }
}

fn col_half(model: &FlowModel, thick: &[Span], cell: u32) -> ColHalf
    requires model { IsModel model.now }
    requires cell { cell < cell_count model.now.grid }
    requires active { is_active model.now cell ≡ true }
    requires thick { Filled (IsThickness model.now) no_span (cell_count model.now.grid) thick.now }
    ensures is { result ≡ column_half model.now cell }
    ensures fits { IsColHalf result }
{
    let along = model.delc_at(cell);
    let hk = dec_at(model.hk.as_slice(), cell);
    let hani = dec_at(model.hani.as_slice(), cell);
    let thickness = span_at(thick, cell);
    ColHalf {
        along,
        hk,
        hani,
        thick_lo: thickness.lo,
        thick_hi: thickness.hi,
    }
}

fn is_ratio(model: &FlowModel, cell: u32) -> bool
    requires { HasSize model.now.grid }
    ensures { result ≡ is_ratio model.now cell }
{
    int_at(model.layvka.as_slice(), cell / model.grid.layer_size()) != 0
}

fn vert_half(model: &FlowModel, thick: &[Span], cell: u32) -> VertHalf
    requires model { IsModel model.now }
    requires layers { 1 < model.now.grid.layers }
    requires cell { cell < cell_count model.now.grid }
    requires active { is_active model.now cell ≡ true }
    requires thick { Filled (IsThickness model.now) no_span (cell_count model.now.grid) thick.now }
    ensures is { result ≡ layer_half model.now cell }
    ensures fits { IsVertHalf result }
{
    let hk = dec_at(model.hk.as_slice(), cell);
    let vka = dec_at(model.vka.as_slice(), cell);
    let ratio = is_ratio(model, cell);
    let thickness = span_at(thick, cell);
    VertHalf {
        hk,
        vka,
        ratio,
        thick_lo: thickness.lo,
        thick_hi: thickness.hi,
    }
}

fn row_pair(model: &FlowModel, thick: &[Span], first: u32, s: u32) -> Pair
    requires model { IsModel model.now }
    requires branch { IsBranch model.now Row first }
    requires thick { Filled (IsThickness model.now) no_span (cell_count model.now.grid) thick.now }
    requires digits { s ≤ 18 }
    ensures { result ≡ face_pair model.now s Row first }
{
    let a = row_half(model, thick, first);
    let b = row_half(model, thick, first + 1);
    capped_pair(row_branch(&a, &b, model.delc_at(first), s))
}

fn column_pair(model: &FlowModel, thick: &[Span], first: u32, s: u32) -> Pair
    requires model { IsModel model.now }
    requires branch { IsBranch model.now Column first }
    requires thick { Filled (IsThickness model.now) no_span (cell_count model.now.grid) thick.now }
    requires digits { s ≤ 18 }
    ensures { result ≡ face_pair model.now s Column first }
{
    let a = col_half(model, thick, first);
    let b = col_half(model, thick, first + model.grid.cols);
    capped_pair(col_branch(&a, &b, model.delr_at(first), s))
}

fn vertical_pair(model: &FlowModel, thick: &[Span], beds: &[Span], first: u32, s: u32) -> Pair
    requires model { IsModel model.now }
    requires branch { IsBranch model.now Vertical first }
    requires thick { Filled (IsThickness model.now) no_span (cell_count model.now.grid) thick.now }
    requires beds { Filled (IsBedBelow model.now) no_span (cell_count model.now.grid) beds.now }
    requires digits { s ≤ 18 }
    ensures { result ≡ face_pair model.now s Vertical first }
{
    let a = vert_half(model, thick, first);
    let b = vert_half(model, thick, first + model.grid.layer_size());
    let span = span_at(beds, first);
    let vkcb = dec_at(model.vkcb.as_slice(), first);
    let bed = Bed {
        thick_lo: span.lo,
        thick_hi: span.hi,
        vkcb,
    };
    capped_pair(vert_branch(&a, &b, &bed, model.delr_at(first), model.delc_at(first), s))
}

/// Whether there is a next cell along the axis, and both are active.
pub fn is_branch(model: &FlowModel, axis: Axis, cell: u32) -> bool
    requires size { HasSize model.now.grid }
    requires cell { cell < cell_count model.now.grid }
    ensures branch { IsTrue result → IsBranch model.now axis cell }
    ensures none { result ≡ false → has_after model.now.grid axis cell ≡ true → is_active model.now cell ≡ true →
        is_active model.now (cell + stride model.now.grid axis) ≡ true → ⊥ }
{
    match model.grid.face_after(axis, cell) {
        Some(face) => model.is_active(cell) && model.is_active(face.end),
        None => false,
    }
}

fn pair_after(
    model: &FlowModel,
    thick: &[Span],
    beds: &[Span],
    axis: Axis,
    cell: u32,
    s: u32,
) -> Pair
    requires model { IsModel model.now }
    requires cell { cell < cell_count model.now.grid }
    requires thick { Filled (IsThickness model.now) no_span (cell_count model.now.grid) thick.now }
    requires beds { Filled (IsBedBelow model.now) no_span (cell_count model.now.grid) beds.now }
    requires digits { s ≤ 18 }
    ensures { HasConductance model.now s axis cell result }
{
    if !is_branch(model, axis, cell) {
        return NO_PAIR;
    }
    match axis {
        Axis::Row => row_pair(model, thick, cell, s),
        Axis::Column => column_pair(model, thick, cell, s),
        Axis::Vertical => vertical_pair(model, thick, beds, cell, s),
    }
}

/// The bounds of the conductances through the faces along an axis, by their first cells.
pub fn pairs(
    alloc: Global,
    model: &FlowModel,
    thick: &[Span],
    beds: &[Span],
    axis: Axis,
    s: u32,
) -> Result<Vec<Pair>, AllocError>
    requires model { IsModel model.now }
    requires thick { Filled (IsThickness model.now) no_span (cell_count model.now.grid) thick.now }
    requires beds { Filled (IsBedBelow model.now) no_span (cell_count model.now.grid) beds.now }
    requires digits { s ≤ 18 }
    ensures { IfOk result (λ v. Filled (HasConductance model.now s axis) no_pair (cell_count model.now.grid) v.items) }
{
    let mut pairs = Vec::new(alloc);
    let count = model.grid.cell_count();
    for cell in 0..count {
        pairs.push(pair_after(model, thick, beds, axis, cell, s))?;
    }
    Ok(pairs)
}
