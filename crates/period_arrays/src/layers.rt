// The test of arrays of layers.
ghost use Rattle.std.specs.Prelude.{◌≡◌, ◌<◌};
ghost use Rattle.record_lines.specs.{HasText};
ghost use Rattle.model_types.specs.{layer_size, cell_count, HasSize};
ghost use Rattle.period_arrays.specs.{is_layer, layer_step, layers_tested, IsCellRefusal};

use model_types::layers::int_at;
use model_types::{CellId, Grid, place_of};
use outside::{Code, Name, Refusal, TextFault};
use std::alloc::Global;

fn is_layer(grid: &Grid, layer: i64) -> bool
    ensures { result ≡ is_layer grid.now layer }
{
    0 <= layer && layer <= grid.layers as i64
}

#[tactic(auto, using(crate::proofs::PlaceLemmas::in_grid))]
fn test_layer(
    alloc: Global,
    file: &str,
    grid: &Grid,
    layers: &[i64],
    place: u32,
) -> Result<(), TextFault>
    requires size { HasSize grid.now }
    requires place { place < layer_size grid.now }
    ensures { HasText (λ _. tt) result (layer_step file.now grid.now layers.now place tt) }
{
    if is_layer(grid, int_at(layers, place)) {
        Ok(())
    } else {
        Err(cell_refused(alloc, Code::CellOutside, file, grid, place))
    }
}

/// Refuses the first number of an array that is neither a layer nor 0, at its row and column.
#[tactic(auto, unfolding(crate::specs::Areas::layers_tested))]
pub fn test_layers(alloc: Global, file: &str, grid: &Grid, layers: &[i64]) -> Result<(), TextFault>
    requires size { HasSize grid.now }
    ensures { HasText (λ _. tt) result (layers_tested file.now grid.now layers.now) }
{
    let places = grid.layer_size();
    for place in 0..places {
        test_layer(alloc, file, grid, layers, place)?;
    }
    Ok(())
}

// The refusal of a cell.

/// The refusal of a cell, with line 0 and its layer, row and column.
pub fn cell_refused(alloc: Global, code: Code, file: &str, grid: &Grid, cell: u32) -> TextFault
    requires size { HasSize grid.now }
    requires cell { cell < cell_count grid.now }
    ensures { IsCellRefusal code file.now grid.now cell result }
{
    match Name::new(alloc, file) {
        Ok(file) => TextFault::Refused(Refusal {
            code,
            file,
            line: 0,
            at: Some(place_of(grid, CellId(cell))),
        }),
        Err(_) => TextFault::Memory,
    }
}
