// The properties of a cell, from the model's lists.
ghost use Rattle.std.specs.Prelude.{◌≡◌};
ghost use Rattle.model_types.specs.{dec_at, int_at, is_active, delr_at, delc_at, has_bed, bottom_at, lowest, top_at, HasSize};

use crate::grid::Grid;
use crate::model::FlowModel;
use decimal_input::dec::Dec;

/// The number at a place of an array; 0 past its end.
pub fn dec_at(xs: &[Dec], place: u32) -> Dec
    ensures { result ≡ dec_at xs.now place }
{
    match xs.get(place as usize) {
        Some(x) => *x,
        None => Dec {
            neg: false,
            digits: 0,
            exp: 0,
        },
    }
}

/// The integer at a place of an array; 0 past its end.
pub fn int_at(xs: &[i64], place: u32) -> i64
    ensures { result ≡ int_at xs.now place }
{
    match xs.get(place as usize) {
        Some(x) => *x,
        None => 0,
    }
}

impl FlowModel {
    /// Whether IBOUND isn't 0.
    pub fn is_active(&self, cell: u32) -> bool
        ensures { result ≡ is_active self.now cell }
    {
        int_at(self.ibound.as_slice(), cell) != 0
    }

    /// DELR, the width of the cell's column.
    pub fn delr_at(&self, cell: u32) -> Dec
        requires size { HasSize self.now.grid }
        ensures { result ≡ delr_at self.now cell }
    {
        dec_at(self.grid.delr.as_slice(), cell % self.grid.cols)
    }

    /// DELC, the width of the cell's row.
    pub fn delc_at(&self, cell: u32) -> Dec
        requires size { HasSize self.now.grid }
        ensures { result ≡ delc_at self.now cell }
    {
        dec_at(
            self.grid.delc.as_slice(),
            cell / self.grid.cols % self.grid.rows,
        )
    }

    /// Whether a confining bed lies below the cell's layer.
    pub fn has_bed(&self, cell: u32) -> bool
        requires size { HasSize self.now.grid }
        ensures { result ≡ has_bed self.now cell }
    {
        int_at(self.grid.laycbd.as_slice(), cell / self.grid.layer_size()) != 0
    }

    /// The bottom of the cell's layer.
    pub fn bottom_at(&self, cell: u32) -> Dec
        ensures { result ≡ bottom_at self.now cell }
    {
        dec_at(self.grid.bottom.as_slice(), cell)
    }

    /// The bottom of what lies between the cell's layer and the next one: the bed's, or the layer's own.
    pub fn lowest(&self, cell: u32) -> Dec
        requires size { HasSize self.now.grid }
        ensures { result ≡ lowest self.now cell }
    {
        if self.has_bed(cell) {
            dec_at(self.grid.bed_bottom.as_slice(), cell)
        } else {
            self.bottom_at(cell)
        }
    }

    /// The elevation above the cell's layer.
    pub fn top_at(&self, cell: u32) -> Dec
        requires size { HasSize self.now.grid }
        ensures { result ≡ top_at self.now cell }
    {
        let layer = self.grid.layer_size();
        if cell < layer {
            dec_at(self.grid.top.as_slice(), cell)
        } else {
            self.lowest(cell - layer)
        }
    }
}
