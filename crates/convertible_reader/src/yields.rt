// The test of SY.
ghost use Rattle.std.specs.Prelude.{◌≡◌, ◌<◌};
ghost use Rattle.model_types.specs.{IsGrid, cell_count};
ghost use Rattle.record_lines.specs.{HasText};
ghost use Rattle.convertible_reader.specs.{is_yield_below_0, yield_step, yields_tested};

use model_types::layers::dec_at;
use model_types::{CellId, FlowModel, place_of};
use outside::{Code, Name, Refusal, TextFault};
use std::alloc::Global;
use water_table::ConvertibleLayers;

fn is_yield_below_0(model: &FlowModel, layers: &ConvertibleLayers, cell: u32) -> bool
    ensures { result ≡ is_yield_below_0 model.now layers.now cell }
{
    model.is_active(cell) && dec_at(layers.sy.as_slice(), cell).neg
}

/// Refuses an active cell whose SY is below 0.
fn yield_tested(
    alloc: Global,
    model: &FlowModel,
    layers: &ConvertibleLayers,
    file: &str,
    cell: u32,
) -> Result<(), TextFault>
    requires grid { IsGrid model.now.grid }
    requires cell { cell < cell_count model.now.grid }
    ensures { HasText (λ _. tt) result (yield_step model.now layers.now file.now cell tt) }
{
    if is_yield_below_0(model, layers, cell) {
        Err(TextFault::Refused(Refusal {
            code: Code::BadProperty,
            file: Name::new(alloc, file)?,
            line: 0,
            at: Some(place_of(&model.grid, CellId(cell))),
        }))
    } else {
        Ok(())
    }
}

/// The first active cell, by ascending number, whose SY is below 0 is refused, with line 0 and its layer, row and column.
#[tactic(auto, unfolding(crate::specs::Yields::yields_tested))]
pub fn yields_tested(
    alloc: Global,
    model: &FlowModel,
    layers: &ConvertibleLayers,
    file: &str,
) -> Result<(), TextFault>
    requires grid { IsGrid model.now.grid }
    ensures { HasText (λ _. tt) result (yields_tested model.now layers.now file.now) }
{
    let cells = model.grid.cell_count();
    for cell in 0..cells {
        yield_tested(alloc, model, layers, file, cell)?;
    }
    Ok(())
}
