// The tests of a cell.
ghost use Rattle.std.specs.Prelude.{◌≡◌, ◌<◌, All};
ghost use Rattle.decimal_input.specs.{IsDec};
ghost use Rattle.model_types.specs.{cell_count, IsGrid};
ghost use Rattle.number_limits.specs.{has_head, has_good_properties, passes, code_of, fault_at, is_checked_bed, is_thick_cell};

use crate::{is_head, is_positive, is_thick};
use model_types::FlowModel;
use model_types::layers::dec_at;
use outside::Code;

/// The checks over the active cells: after BAS6 the thickness of each and the starting head of each, after LPF the
/// properties of each.
#[derive(Clone, Copy)]
pub enum Check {
    Thickness,
    StartHead,
    Properties,
}

#[tactic(auto, using(crate::proofs::Canonical::dec_at_is))]
fn has_head(model: &FlowModel, cell: u32) -> bool
    requires strt { All IsDec model.now.strt }
    ensures { result ≡ has_head model.now cell }
{
    is_head(dec_at(model.strt.as_slice(), cell))
}

fn has_good_properties(model: &FlowModel, cell: u32) -> bool
    requires grid { IsGrid model.now.grid }
    requires cell { cell < cell_count model.now.grid }
    ensures { result ≡ has_good_properties model.now cell }
{
    is_positive(dec_at(model.hk.as_slice(), cell))
        && is_positive(dec_at(model.hani.as_slice(), cell))
        && (model.grid.layers <= 1 || is_positive(dec_at(model.vka.as_slice(), cell)))
        && !dec_at(model.ss.as_slice(), cell).neg
        && (!is_checked_bed(model, cell) || is_positive(dec_at(model.vkcb.as_slice(), cell)))
}

fn passes(check: Check, model: &FlowModel, cell: u32) -> bool
    requires grid { IsGrid model.now.grid }
    requires strt { All IsDec model.now.strt }
    requires cell { cell < cell_count model.now.grid }
    ensures { result ≡ passes check model.now cell }
{
    match check {
        Check::Thickness => is_thick_cell(model, cell),
        Check::StartHead => has_head(model, cell),
        Check::Properties => has_good_properties(model, cell),
    }
}

fn code_of(check: Check) -> Code
    ensures { result ≡ code_of check }
{
    match check {
        Check::Thickness => Code::BadThickness,
        Check::StartHead => Code::HeadTooLarge,
        Check::Properties => Code::BadProperty,
    }
}

/// The fault of a cell under a check; None where it isn't active or passes.
#[tactic(auto, unfolding(crate::specs::Checks::fault_at))]
pub fn fault_at(check: Check, model: &FlowModel, cell: u32) -> Option<Code>
    requires grid { IsGrid model.now.grid }
    requires strt { All IsDec model.now.strt }
    requires cell { cell < cell_count model.now.grid }
    ensures { result ≡ fault_at check model.now cell }
{
    if !model.is_active(cell) || passes(check, model, cell) {
        None
    } else {
        Some(code_of(check))
    }
}

/// Whether the bed below a cell is checked: there is an active cell below it, and its two elevations differ.
pub fn is_checked_bed(model: &FlowModel, cell: u32) -> bool
    requires grid { IsGrid model.now.grid }
    requires cell { cell < cell_count model.now.grid }
    ensures { result ≡ is_checked_bed model.now cell }
{
    let below = cell + model.grid.layer_size();
    model.has_bed(cell)
        && below < model.grid.cell_count()
        && model.is_active(below)
        && model.bottom_at(cell) != model.lowest(cell)
}

/// Whether a cell is thick enough, and the bed below it if that is checked.
#[tactic(auto, using(crate::proofs::CellCanonical::top_is, crate::proofs::CellCanonical::bottom_is, crate::proofs::CellCanonical::lowest_is))]
pub fn is_thick_cell(model: &FlowModel, cell: u32) -> bool
    requires grid { IsGrid model.now.grid }
    requires cell { cell < cell_count model.now.grid }
    ensures { result ≡ is_thick_cell model.now cell }
{
    is_thick(model.top_at(cell), model.bottom_at(cell))
        && (!is_checked_bed(model, cell) || is_thick(model.bottom_at(cell), model.lowest(cell)))
}
