// Cells and their places.
ghost use Rattle.std.specs.Prelude.{◌≡◌, ◌+◌, ◌-◌, ◌<◌, [], ◌∷◌};
ghost use Rattle.model_types.specs.{cell_count, cell_number, layer_of, row_of, column_of, place, HasSize, IsPlace};

use crate::grid::{CellId, Grid};

/// The cell in a layer, a row and a column, each counted from 1.
#[tactic(auto, using(crate::proofs::Numbering::cell_leads_back))]
pub fn cell_of(grid: &Grid, layer: u32, row: u32, col: u32) -> CellId
    requires size { HasSize grid.now }
    requires place { IsPlace grid.now layer row col }
    ensures number { result.0 ≡ cell_number grid.now (layer - 1) (row - 1) (col - 1) }
    ensures inside { result.0 < cell_count grid.now }
    ensures leads_back { place grid.now result.0 ≡ layer ∷ row ∷ col ∷ [] }
{
    CellId(((layer - 1) * grid.rows + (row - 1)) * grid.cols + (col - 1))
}

/// The layer, the row and the column of a cell, each counted from 1.
#[tactic(auto, using(crate::proofs::Numbering::place_gives))]
pub fn place_of(grid: &Grid, cell: CellId) -> [u32; 3]
    requires size { HasSize grid.now }
    requires cell { cell.0 < cell_count grid.now }
    ensures place { result ≡ place grid.now cell.0 }
    ensures inside { IsPlace grid.now (layer_of grid.now cell.0 + 1) (row_of grid.now cell.0 + 1) (column_of grid.now cell.0 + 1) }
    ensures leads_back { cell_number grid.now (layer_of grid.now cell.0) (row_of grid.now cell.0) (column_of grid.now cell.0) ≡ cell.0 }
{
    let along_rows = cell.0 / grid.cols;
    [
        cell.0 / (grid.rows * grid.cols) + 1,
        along_rows % grid.rows + 1,
        cell.0 % grid.cols + 1,
    ]
}
