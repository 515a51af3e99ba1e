// The tables that all time steps of a run share.
ghost use Rattle.std.specs.Prelude.{◌≤◌, IfOk, ◌≡◌, ◌+◌, ◌<◌, ◌↔◌, true, false, IsTrue};
ghost use Rattle.model_types.specs.{IsModel, cell_count, layer_size, is_active, has_bed, lowest, bottom_at, bed_thickness};
ghost use Rattle.problem_builder.specs.{AreTables, no_span, IsThickness, IsBedBelow, Filled};

use crate::faces::pairs;
use conductance_bounds::{Pair, Span, thickness};
use model_types::{Axis, FlowModel, Listed};
use scaled_decimal::Sd;
use std::alloc::{AllocError, Global};

/// The conductances of all faces, in units of 10^-s: for each cell the one to the next cell along each axis.
#[derive(Drop)]
pub struct FacePairs {
    pub row: Listed<Pair>,
    pub column: Listed<Pair>,
    pub vertical: Listed<Pair>,
}

/// The data that depend on a model and the number of digits alone, made once a run: for each cell its thickness and
/// that of the bed below it, and the conductances of faces. A conductance that reaches 2^60 units is kept as 1 and
/// 2^60.
pub struct Tables {
    pub digits: u32,
    pub thick: Listed<Span>,
    pub bed: Listed<Span>,
    pub pairs: FacePairs,
}

impl Drop for Tables {
    fn drop(self) {
        let Tables {
            digits: _,
            thick: _,
            bed: _,
            pairs: _,
        } = self;
    }
}

impl Tables {
    /// The tables of a model with s digits.
    pub fn new(alloc: Global, model: &FlowModel, s: u32) -> Result<Tables, AllocError>
        requires model { IsModel model.now }
        requires digits { s ≤ 18 }
        ensures { IfOk result (AreTables model.now s) }
    {
        let thick = thicknesses(alloc, model)?;
        let bed = beds(alloc, model)?;
        let spans = thick.as_slice();
        let below = bed.as_slice();
        let row = pairs(alloc, model, spans, below, Axis::Row, s)?;
        let column = pairs(alloc, model, spans, below, Axis::Column, s)?;
        let vertical = pairs(alloc, model, spans, below, Axis::Vertical, s)?;
        Ok(Tables {
            digits: s,
            thick: Listed::new(thick),
            bed: Listed::new(bed),
            pairs: FacePairs {
                row: Listed::new(row),
                column: Listed::new(column),
                vertical: Listed::new(vertical),
            },
        })
    }
}

// Thicknesses of cells and of the beds below them.

/// The decimals of a missing thickness.
pub const NO_SPAN: Span = Span {
    lo: Sd { m: 0, e: 0 },
    hi: Sd { m: 0, e: 0 },
};

fn thickness_at(model: &FlowModel, cell: u32) -> Span
    requires model { IsModel model.now }
    requires cell { cell < cell_count model.now.grid }
    ensures { IsThickness model.now cell result }
{
    if model.is_active(cell) {
        thickness(model.top_at(cell), model.bottom_at(cell))
    } else {
        NO_SPAN
    }
}

/// The thicknesses of all cells.
pub fn thicknesses(alloc: Global, model: &FlowModel) -> Result<Vec<Span>, AllocError>
    requires { IsModel model.now }
    ensures { IfOk result (λ v. Filled (IsThickness model.now) no_span (cell_count model.now.grid) v.items) }
{
    let mut spans = Vec::new(alloc);
    let count = model.grid.cell_count();
    for cell in 0..count {
        spans.push(thickness_at(model, cell))?;
    }
    Ok(spans)
}

// Whether both cells of a vertical branch are active.
fn is_branch_below(model: &FlowModel, cell: u32) -> bool
    requires model { IsModel model.now }
    requires cell { cell < cell_count model.now.grid }
    ensures { IsTrue result ↔ ((cell + layer_size model.now.grid < cell_count model.now.grid)
        × (is_active model.now cell ≡ true) × (is_active model.now (cell + layer_size model.now.grid) ≡ true)) }
{
    let below = cell + model.grid.layer_size();
    below < model.grid.cell_count() && model.is_active(cell) && model.is_active(below)
}

// Whether the bed below a cell has a thickness.
fn has_bed(model: &FlowModel, cell: u32) -> bool
    requires model { IsModel model.now }
    ensures bed { IsTrue result → (has_bed model.now cell ≡ true) × (lowest model.now cell ≡ bottom_at model.now cell → ⊥) }
    ensures none { result ≡ false → (bed_thickness model.now cell).num ≡ 0 }
{
    model.has_bed(cell) && model.lowest(cell) != model.bottom_at(cell)
}

fn bed_at(model: &FlowModel, cell: u32) -> Span
    requires model { IsModel model.now }
    requires cell { cell < cell_count model.now.grid }
    ensures { IsBedBelow model.now cell result }
{
    if is_branch_below(model, cell) && has_bed(model, cell) {
        thickness(model.bottom_at(cell), model.lowest(cell))
    } else {
        NO_SPAN
    }
}

/// The thicknesses of the beds below all cells.
pub fn beds(alloc: Global, model: &FlowModel) -> Result<Vec<Span>, AllocError>
    requires { IsModel model.now }
    ensures { IfOk result (λ v. Filled (IsBedBelow model.now) no_span (cell_count model.now.grid) v.items) }
{
    let mut spans = Vec::new(alloc);
    let count = model.grid.cell_count();
    for cell in 0..count {
        spans.push(bed_at(model, cell))?;
    }
    Ok(spans)
}
