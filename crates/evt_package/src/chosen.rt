// The cell of a column of layers that evaporates.
ghost use Rattle.std.specs.Prelude.{◌≡◌, ◌+◌, ◌*◌, ◌<◌, ◌≤◌, IfSome};
ghost use Rattle.model_types.specs.{cell_count, layer_size, HasSize};
ghost use Rattle.evt_package.specs.{chosen_cell, highest_active};

use model_types::Grid;
use model_types::layers::int_at;
use number_limits::within;

/// The cell of a column in layer k, from 0.
#[tactic(auto, using(crate::proofs::ModelLemmas::in_grid))]
fn cell_in(grid: &Grid, layer: u32, column: u32) -> u32
    requires size { HasSize grid.now }
    requires layer { layer < grid.now.layers }
    requires column { column < layer_size grid.now }
    ensures cell { result ≡ layer * layer_size grid.now + column }
    ensures inside { result < cell_count grid.now }
{
    layer * grid.layer_size() + column
}

/// The highest active cell of a column.
#[tactic(auto, using(crate::proofs::ModelLemmas::goes_down, crate::proofs::ModelLemmas::is_found, crate::proofs::ModelLemmas::is_none))]
fn highest_active(grid: &Grid, ibound: &[i64], column: u32) -> Option<u32>
    requires size { HasSize grid.now }
    requires column { column < layer_size grid.now }
    ensures cell { result ≡ highest_active grid.now ibound.now column 0 grid.now.layers }
    ensures inside { IfSome result (λ c. c < cell_count grid.now) }
{
    for layer in 0..grid.layers {
        let cell = cell_in(grid, layer, column);
        if int_at(ibound, cell) != 0 {
            return Some(cell);
        }
    }
    None
}

/// The cell of a column that the option chooses; None where there is none.
#[tactic(auto, using(period_arrays::proofs::PlaceLemmas::in_grid))]
pub fn chosen_cell(
    grid: &Grid,
    ibound: &[i64],
    option: &i64,
    layers: &[i64],
    column: u32,
) -> Option<u32>
    requires size { HasSize grid.now }
    requires column { column < layer_size grid.now }
    ensures cell { result ≡ chosen_cell grid.now ibound.now option.now layers.now column }
    ensures inside { IfSome result (λ c. c < cell_count grid.now) }
{
    if *option == 1 {
        Some(column)
    } else if *option == 2 {
        match within(int_at(layers, column), grid.layers) {
            Some(k) => Some(cell_in(grid, k - 1, column)),
            None => None,
        }
    } else {
        highest_active(grid, ibound, column)
    }
}
