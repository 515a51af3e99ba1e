// The elimination tree: a column's parent is its first row below the diagonal. It leads from the couplings of a row to the fill in it.
use multigrid::Matrix;
use multigrid::numbers::{NONE, label, label_at, put};
use std::alloc::{AllocError, Global};

/// The tree of the rows so far, of a matrix in an order of elimination.
#[derive(Drop)]
pub struct Tree<'a> {
    matrix: &'a Matrix,
    order: &'a [u32],
    places: &'a [u32],
    parents: Vec<u32>,
    // The last row in which each column was met.
    met: Vec<u32>,
    // The columns of the last row.
    columns: Vec<u32>,
}

impl Tree<'_> {
    /// The tree of no rows. `places` has the place of each unknown in the order.
    pub fn new<'a>(
        alloc: Global,
        matrix: &'a Matrix,
        order: &'a [u32],
        places: &'a [u32],
    ) -> Result<Tree<'a>, AllocError> {
        Ok(Tree {
            matrix,
            order,
            places,
            parents: vec![in alloc; NONE; order.len()]?,
            met: vec![in alloc; NONE; order.len()]?,
            columns: Vec::with_capacity(alloc, order.len())?,
        })
    }

    // Meets a column and those above it in the tree, until one that this row has met.
    fn climb(&mut self, row: usize, from: u32) -> Result<(), AllocError> {
        let mut column = from;
        for _ in 0..row {
            let index = column as usize;
            if index >= row || label_at(self.met.as_slice(), index) == label(row) {
                break;
            }
            put(self.met.as_mut_slice(), index, label(row));
            self.columns.push(column)?;
            if label_at(self.parents.as_slice(), index) == NONE {
                put(self.parents.as_mut_slice(), index, label(row));
            }
            column = label_at(self.parents.as_slice(), index);
        }
        Ok(())
    }

    /// The columns of a factor's next row, without the diagonal. Rows come in ascending order.
    pub fn add_row(&mut self, row: usize) -> Result<&[u32], AllocError> {
        self.columns.clear();
        let own = self.matrix.row(label_at(self.order, row) as usize);
        for coupling in self.matrix.couplings(&own) {
            self.climb(row, label_at(self.places, coupling.other as usize))?;
        }
        Ok(self.columns.as_slice())
    }
}
