// The matrix over aggregates: sums of the entries over the members of each (Galerkin, with constants for each aggregate).
use crate::aggregates::{Aggregates, pairs};
use crate::matrix::Matrix;
use crate::numbers::{NONE, at, filled_value, label, label_at, list_of, put};
use std::alloc::{AllocError, Global};
use std::mem;

/// The next coarser level: the aggregate of each unknown, and the matrix over aggregates.
#[derive(Drop)]
pub struct Coarsening {
    pub aggregates: Vec<u32>,
    pub matrix: Matrix,
}

// A coarser matrix in the making.
#[derive(Drop)]
struct Merger<'a> {
    matrix: &'a Matrix,
    of: &'a [u32],
    // The members of aggregates as lists: the first member of each aggregate, and the next one after each unknown.
    first: Vec<u32>,
    next: Vec<u32>,
    coarse: Matrix,
    // The place of the open row's coupling with each aggregate.
    places: Vec<usize>,
}

impl Merger<'_> {
    fn list_members(&mut self) {
        for unknown in (0..self.of.len()).rev() {
            let aggregate = label_at(self.of, unknown) as usize;
            let first = label_at(self.first.as_slice(), aggregate);
            put(self.next.as_mut_slice(), unknown, first);
            put(self.first.as_mut_slice(), aggregate, label(unknown));
        }
    }

    // Adds the couplings of an unknown to the open row of its aggregate. Returns what it adds to the diagonal.
    fn add_member(&mut self, aggregate: u32, unknown: usize) -> Result<i64, AllocError> {
        let row = self.matrix.row(unknown);
        let mut diagonal = row.pivot.weight;
        for coupling in self.matrix.couplings(&row) {
            let other = label_at(self.of, coupling.other as usize);
            if other == aggregate {
                diagonal = diagonal.saturating_sub(coupling.weight());
                continue;
            }
            let place = at(self.places.as_slice(), other as usize);
            let place = self.coarse.strengthen(place, other, coupling.weight())?;
            put(self.places.as_mut_slice(), other as usize, place);
        }
        Ok(diagonal)
    }

    // Makes the row of an aggregate.
    fn add_aggregate(&mut self, aggregate: u32) -> Result<(), AllocError> {
        let mut member = label_at(self.first.as_slice(), aggregate as usize);
        let mut diagonal = 0_i64;
        for _ in 0..self.of.len() {
            if member == NONE {
                break;
            }
            diagonal = diagonal.saturating_add(self.add_member(aggregate, member as usize)?);
            member = label_at(self.next.as_slice(), member as usize);
        }
        self.coarse.close_row(diagonal)
    }

    // Makes the rows of all aggregates, if memory has not ended.
    fn add_aggregates(
        &mut self,
        memory: Result<(), AllocError>,
        count: u32,
    ) -> Result<(), AllocError> {
        memory?;
        self.list_members();
        for aggregate in 0..count {
            self.add_aggregate(aggregate)?;
        }
        Ok(())
    }
}

fn over_aggregates<'a>(
    alloc: Global,
    matrix: &'a Matrix,
    aggregates: &'a Aggregates,
) -> Result<Matrix, AllocError> {
    let mut memory = Ok(());
    let count = aggregates.count as usize;
    let mut merger = Merger {
        matrix,
        of: aggregates.of.as_slice(),
        first: list_of(&mut memory, alloc, NONE, count),
        next: list_of(&mut memory, alloc, NONE, matrix.len()),
        coarse: Matrix::new(alloc),
        places: list_of(&mut memory, alloc, 0, count),
    };
    let added = merger.add_aggregates(memory, aggregates.count);
    let coarse = mem::replace(&mut merger.coarse, Matrix::new(alloc));
    drop(merger);
    filled_value(coarse, added)
}

fn over_pairs(alloc: Global, matrix: &Matrix, lone: bool) -> Result<Coarsening, AllocError> {
    let pairs = pairs(alloc, matrix, lone)?;
    Ok(Coarsening {
        matrix: over_aggregates(alloc, matrix, &pairs)?,
        aggregates: pairs.of,
    })
}

impl Coarsening {
    // Goes on to pairs of these aggregates.
    fn pair_up(&mut self, alloc: Global) -> Result<(), AllocError> {
        let mut next = over_pairs(alloc, &self.matrix, true)?;
        for aggregate in self.aggregates.iter_mut() {
            *aggregate = label_at(next.aggregates.as_slice(), *aggregate as usize);
        }
        self.matrix = mem::replace(&mut next.matrix, Matrix::new(alloc));
        drop(next);
        Ok(())
    }
}

/// Aggregates of mostly four unknowns: pairs of pairs. None where no two unknowns are coupled.
pub fn coarser(alloc: Global, matrix: &Matrix) -> Result<Option<Coarsening>, AllocError> {
    let mut coarsening = over_pairs(alloc, matrix, false)?;
    if coarsening.matrix.len() == 0 {
        drop(coarsening);
        return Ok(None);
    }
    let paired = coarsening.pair_up(alloc);
    Ok(Some(filled_value(coarsening, paired)?))
}
