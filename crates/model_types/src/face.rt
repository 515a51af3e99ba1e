// The faces between cells.

/// A direction in which cells have neighbours: along a row, along a column, from layer to layer.
#[derive(Clone, Copy)]
pub enum Axis {
    Row,
    Column,
    Vertical,
}

/// A face of a cell: the axis through it, the one of its two cells that has the smaller number, and the
/// neighbour on its other side.
#[derive(Clone, Copy)]
pub struct Face {
    pub axis: Axis,
    pub first: u32,
    pub end: u32,
}
