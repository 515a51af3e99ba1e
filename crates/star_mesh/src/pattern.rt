// The pattern of a factor.
use crate::dissection::elimination_order;
use crate::lists::Span;
use crate::tree::Tree;
use multigrid::Matrix;
use multigrid::numbers::{at, filled_value, label, label_at, put};
use std::alloc::{AllocError, Global};

/// An order of elimination, and the rows of each column of the factor below the diagonal, in ascending order. They depend on
/// which unknowns are coupled, and not on weights.
#[derive(Drop)]
pub struct Pattern {
    // The unknown that is eliminated in each place, and the place of each unknown.
    order: Vec<u32>,
    places: Vec<u32>,
    // Where each column begins in the list of rows, and where the last one ends.
    starts: Vec<usize>,
    rows: Vec<u32>,
    /// The operations of a factoring: products of two numbers.
    pub operations: u64,
}

fn inverse(alloc: Global, order: &[u32]) -> Result<Vec<u32>, AllocError> {
    let mut places = vec![in alloc; 0; order.len()]?;
    for (place, unknown) in order.iter().enumerate() {
        put(places.as_mut_slice(), *unknown as usize, label(place));
    }
    Ok(places)
}

// Writes the rows of each column from its place on, which becomes its end, if there is room for them.
fn list_rows(tree: &mut Tree, ends: &mut [usize], rows: &mut [u32]) -> Result<(), AllocError> {
    for row in 0..ends.len() {
        for column in tree.add_row(row)? {
            let column = *column as usize;
            let end = at(ends, column);
            put(rows, end, label(row));
            put(ends, column, end.saturating_add(1));
        }
    }
    Ok(())
}

// Where each column begins in the list of rows, and where the last one ends.
fn starts_of(alloc: Global, counts: &[usize]) -> Result<Vec<usize>, AllocError> {
    let mut starts = Vec::with_capacity(alloc, counts.len().saturating_add(1))?;
    let mut sum = 0_usize;
    starts.push(sum)?;
    for count in counts {
        sum = sum.saturating_add(*count);
        starts.push(sum)?;
    }
    Ok(starts)
}

// The operations of a factoring: one for each pair of a column's rows.
fn operations_of(counts: &[usize]) -> u64 {
    counts.iter().fold(0_u64, |sum, count| {
        let count = *count as u64;
        sum.saturating_add(count.saturating_mul(count.saturating_add(1)) / 2)
    })
}

impl Pattern {
    /// The pattern of a matrix, which fits all matrices with no other couplings. None where a factoring takes more than `most` operations.
    pub fn new(alloc: Global, matrix: &Matrix, most: u64) -> Result<Option<Pattern>, AllocError> {
        let mut pattern = Pattern {
            order: elimination_order(alloc, matrix)?,
            places: Vec::new(alloc),
            starts: Vec::new(alloc),
            rows: Vec::new(alloc),
            operations: 0,
        };
        let found = pattern.find_starts(alloc, matrix);
        let mut pattern = filled_value(pattern, found)?;
        if pattern.operations > most {
            drop(pattern);
            return Ok(None);
        }
        let found = pattern.find_rows(alloc, matrix);
        Ok(Some(filled_value(pattern, found)?))
    }

    // Writes the rows of each column from these places on, which become their ends.
    fn list_rows(
        &mut self,
        alloc: Global,
        matrix: &Matrix,
        ends: &mut [usize],
    ) -> Result<(), AllocError> {
        let (order, places) = (self.order.as_slice(), self.places.as_slice());
        let mut tree = Tree::new(alloc, matrix, order, places)?;
        let listed = list_rows(&mut tree, ends, self.rows.as_mut_slice());
        drop(tree);
        listed
    }

    // Finds where each column begins, and the operations of a factoring.
    fn find_starts(&mut self, alloc: Global, matrix: &Matrix) -> Result<(), AllocError> {
        self.places = inverse(alloc, self.order.as_slice())?;
        let mut counts = vec![in alloc; 0_usize; self.order.len()]?;
        self.list_rows(alloc, matrix, counts.as_mut_slice())?;
        self.operations = operations_of(counts.as_slice());
        self.starts = starts_of(alloc, counts.as_slice())?;
        Ok(())
    }

    fn find_rows(&mut self, alloc: Global, matrix: &Matrix) -> Result<(), AllocError> {
        let entries = at(self.starts.as_slice(), self.order.len());
        self.rows.resize(entries, 0)?;
        let mut ends = self.starts.clone()?;
        self.list_rows(alloc, matrix, ends.as_mut_slice())
    }

    /// The number of unknowns.
    pub fn len(&self) -> usize {
        self.order.len()
    }

    /// The number of entries of a factor below its diagonal.
    pub fn entries(&self) -> usize {
        self.rows.len()
    }

    // Whether the pattern has entries for all couplings of a column.
    fn fits_column(&self, matrix: &Matrix, column: usize) -> bool {
        let rows = self.rows_of(&self.entries_of(column));
        let row = matrix.row(self.unknown_at(column));
        matrix.couplings(&row).iter().all(|coupling| {
            let place = self.place(coupling.other);
            place as usize <= column || rows.contains(&place)
        })
    }

    /// Whether a matrix has no couplings that the pattern has no entries for.
    pub fn fits(&self, matrix: &Matrix) -> bool {
        matrix.len() == self.len() && (0..self.len()).all(|column| self.fits_column(matrix, column))
    }

    /// The unknown that is eliminated in a place.
    pub(crate) fn unknown_at(&self, place: usize) -> usize {
        label_at(self.order.as_slice(), place) as usize
    }

    /// The place of an unknown.
    pub(crate) fn place(&self, unknown: u32) -> u32 {
        label_at(self.places.as_slice(), unknown as usize)
    }

    /// The places of a column's entries.
    pub(crate) fn entries_of(&self, column: usize) -> Span {
        let starts = self.starts.as_slice();
        Span::new(at(starts, column), at(starts, column.saturating_add(1)))
    }

    /// The rows of entries.
    pub(crate) fn rows_of(&self, entries: &Span) -> &[u32] {
        entries.of(self.rows.as_slice())
    }
}
