// The cells of places.
ghost use Rattle.std.specs.Prelude.{◌≡◌, ◌<◌};
ghost use Rattle.deck_span.specs.{apart, cell_in_grid, earlier};

use model_types::CellId;

/// The cell of this number, in a grid of this many cells.
pub fn numbered_cell(cells: u32, number: usize) -> Option<CellId>
    ensures { result ≡ cell_in_grid cells number }
{
    if number < cells as usize {
        Some(CellId(number as u32))
    } else {
        None
    }
}

/// The cell of the place at which two parts differ first, where there is one.
pub fn place_apart(cells: u32, place: Option<usize>) -> Result<(), Option<CellId>>
    ensures { result ≡ apart cells place }
{
    match place {
        None => Ok(()),
        Some(place) => Err(numbered_cell(cells, place)),
    }
}

/// Of the first differences of two arrays the one that is read first: layer by layer, and in a layer the first array's.
pub fn earlier_place(layer_size: u32, first: Option<usize>, second: Option<usize>) -> Option<usize>
    requires some { 0 < layer_size }
    ensures { result ≡ earlier layer_size first second }
{
    let size = layer_size as usize;
    match (first, second) {
        (None, place) => place,
        (Some(place), None) => Some(place),
        (Some(p), Some(q)) => Some(if q / size < p / size { q } else { p }),
    }
}
