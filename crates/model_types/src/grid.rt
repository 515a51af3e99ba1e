// The grid: its size, the widths of its columns and rows, and its elevations.
use crate::listed::Listed;
use decimal_input::dec::Dec;

/// A cell, by its number: from 0, layer by layer, row by row, column by column.
#[derive(Clone, Copy)]
pub struct CellId(pub u32);

/// The grid. `delr` is by column, `delc` by row, `laycbd` by layer, `top` by the cells of layer 1, and the others
/// by cell. `laycbd` isn't 0 where a confining bed lies below the layer, and `bed_bottom` is that bed's bottom.
pub struct Grid {
    pub layers: u32,
    pub rows: u32,
    pub cols: u32,
    pub delr: Listed<Dec>,
    pub delc: Listed<Dec>,
    pub top: Listed<Dec>,
    pub bottom: Listed<Dec>,
    pub laycbd: Listed<i64>,
    pub bed_bottom: Listed<Dec>,
}

impl Drop for Grid {
    fn drop(self) {
        let Grid {
            layers: _,
            rows: _,
            cols: _,
            delr: _,
            delc: _,
            top: _,
            bottom: _,
            laycbd: _,
            bed_bottom: _,
        } = self;
    }
}
