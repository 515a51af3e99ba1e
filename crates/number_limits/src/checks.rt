// Checks over all cells.
ghost use Rattle.std.specs.Prelude.{◌≡◌, ◌<◌, All};
ghost use Rattle.decimal_input.specs.{IsDec};
ghost use Rattle.model_types.specs.{cell_count, IsGrid};
ghost use Rattle.record_lines.specs.{HasText};
ghost use Rattle.number_limits.specs.{cell_step, check_result};

use crate::passing::{Check, fault_at};
use model_types::{CellId, FlowModel, place_of};
use outside::{Name, Refusal, TextFault};
use std::alloc::Global;

/// Refuses a cell that has a fault.
fn check_cell(
    alloc: Global,
    model: &FlowModel,
    file: &str,
    check: Check,
    cell: u32,
) -> Result<(), TextFault>
    requires grid { IsGrid model.now.grid }
    requires strt { All IsDec model.now.strt }
    requires cell { cell < cell_count model.now.grid }
    ensures { HasText (λ _. tt) result (cell_step model.now file.now check cell tt) }
{
    match fault_at(check, model, cell) {
        None => Ok(()),
        Some(code) => Err(TextFault::Refused(Refusal {
            code,
            file: Name::new(alloc, file)?,
            line: 0,
            at: Some(place_of(&model.grid, CellId(cell))),
        })),
    }
}

/// The first cell, by ascending number, that fails a check is refused, with line 0 and its layer, row and column.
/// `file` is the file that is refused.
#[tactic(auto, unfolding(crate::specs::Checks::check_result))]
pub fn check_cells(
    alloc: Global,
    model: &FlowModel,
    file: &str,
    check: Check,
) -> Result<(), TextFault>
    requires grid { IsGrid model.now.grid }
    requires strt { All IsDec model.now.strt }
    ensures { HasText (λ _. tt) result (check_result model.now file.now check) }
{
    let cells = model.grid.cell_count();
    for cell in 0..cells {
        check_cell(alloc, model, file, check, cell)?;
    }
    Ok(())
}
