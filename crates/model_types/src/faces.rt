// The faces of a cell.
ghost use Rattle.std.specs.Prelude.{◌≡◌, ◌<◌, ◌≤◌, All, map, [], ◌∷◌};
ghost use Rattle.std.specs.Option.{option_map};
ghost use Rattle.model_types.specs.{layer_size, cell_count, left, right, back, front, up, down, stride, span, face_before, face_after, faces, HasSize};
ghost use Rattle.model_types.specs.{IsInGrid, most_cells};
ghost use Rattle.model_types.specs.declared.limits.Limits.TheVariants.{Wide};

use crate::face::{Axis, Face};
use crate::grid::Grid;

impl Grid {
    /// How many cells a layer has.
    pub fn layer_size(&self) -> u32
        requires size { HasSize self.now }
        ensures size { result ≡ layer_size self.now }
        ensures some { 1 ≤ result }
    {
        self.rows * self.cols
    }

    /// How many cells the grid has.
    pub fn cell_count(&self) -> u32
        requires size { HasSize self.now }
        ensures count { result ≡ cell_count self.now }
        ensures few { result ≤ most_cells Wide }
    {
        self.layers * self.layer_size()
    }

    fn stride(&self, axis: Axis) -> u32
        requires size { HasSize self.now }
        ensures { result ≡ stride self.now axis }
    {
        match axis {
            Axis::Row => 1,
            Axis::Column => self.cols,
            Axis::Vertical => self.layer_size(),
        }
    }

    fn span(&self, axis: Axis) -> u32
        requires size { HasSize self.now }
        ensures { result ≡ span self.now axis }
    {
        match axis {
            Axis::Row => self.cols,
            Axis::Column => self.layer_size(),
            Axis::Vertical => self.cell_count(),
        }
    }

    /// The face to the cell before this one along an axis, if there is one.
    pub fn face_before(&self, axis: Axis, cell: u32) -> Option<Face>
        requires size { HasSize self.now }
        requires cell { cell < cell_count self.now }
        ensures { result ≡ face_before self.now axis cell }
    {
        let stride = self.stride(axis);
        if stride <= cell % self.span(axis) {
            let first = cell - stride;
            Some(Face {
                axis,
                first,
                end: first,
            })
        } else {
            None
        }
    }

    /// The face to the cell after this one along an axis, if there is one.
    pub fn face_after(&self, axis: Axis, cell: u32) -> Option<Face>
        requires size { HasSize self.now }
        requires cell { cell < cell_count self.now }
        ensures { result ≡ face_after self.now axis cell }
    {
        let stride = self.stride(axis);
        let span = self.span(axis);
        if cell % span + stride < span {
            Some(Face {
                axis,
                first: cell,
                end: cell + stride,
            })
        } else {
            None
        }
    }

    /// The faces to the up to six neighbours of a cell, by ascending number of the neighbour: up, back, left,
    /// right, front, down.
    pub fn faces(&self, cell: u32) -> [Option<Face>; 6]
        requires size { HasSize self.now }
        requires cell { cell < cell_count self.now }
        ensures faces { result ≡ faces self.now cell }
        ensures within { All (IsInGrid self.now) result }
        ensures ends { map (option_map (λ x. x.end)) result ≡ up self.now cell ∷ back self.now cell
            ∷ left self.now cell ∷ right self.now cell ∷ front self.now cell ∷ down self.now cell ∷ [] }
    {
        [
            self.face_before(Axis::Vertical, cell),
            self.face_before(Axis::Column, cell),
            self.face_before(Axis::Row, cell),
            self.face_after(Axis::Row, cell),
            self.face_after(Axis::Column, cell),
            self.face_after(Axis::Vertical, cell),
        ]
    }
}
