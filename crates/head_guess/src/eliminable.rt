// The pattern of a problem's links, where elimination is worth its operations.
use crate::links::Links;
use multigrid::Matrix;
use multigrid::numbers::filled_value;
use star_mesh::Pattern;
use std::alloc::{AllocError, Global};

// A pattern is kept with at most this number of operations for each cell: then a factor takes as many visits as some seven solutions by
// cycles that stay unsolved.
const MOST_OPERATIONS: u64 = 12_000;

// And with at most this number where nothing else solves a system.
const MOST_OF_DEAR: u64 = 100_000;

/// With more cells than these a factor takes many operations.
pub const MANY_CELLS: usize = 1 << 17;

/// What is known of the elimination of a problem's links. It is kept from one step to the next, since links stay.
#[derive(Drop)]
pub enum Eliminable {
    Unknown,
    /// A pattern has more than this number of operations for each cell.
    No(u64),
    Yes(Pattern),
}

// Couples each cell with those that it is linked with.
fn couple_cells(matrix: &mut Matrix, links: &Links) -> Result<(), AllocError> {
    for cell in 0..links.len() {
        for link in links.at(cell) {
            matrix.couple(link.cell, 1)?;
        }
        matrix.close_row(1)?;
    }
    Ok(())
}

impl Eliminable {
    // That of these links, with at most this number of operations for each cell.
    fn of(alloc: Global, links: &Links, most: u64) -> Result<Eliminable, AllocError> {
        let mut matrix = Matrix::new(alloc);
        let coupled = couple_cells(&mut matrix, links);
        let matrix = filled_value(matrix, coupled)?;
        let operations = most.saturating_mul(links.len() as u64);
        let pattern = Pattern::new(alloc, &matrix, operations);
        drop(matrix);
        Ok(match pattern? {
            Some(pattern) => Eliminable::Yes(pattern),
            None => Eliminable::No(most),
        })
    }

    /// The pattern of these links, if elimination pays, or is the last way and may be dear. It is found once: another number of cells has another
    /// pattern.
    pub fn pattern(
        &mut self,
        alloc: Global,
        links: &Links,
        may_be_dear: bool,
    ) -> Result<Option<&Pattern>, AllocError> {
        let most = if may_be_dear {
            MOST_OF_DEAR
        } else {
            MOST_OPERATIONS
        };
        let is_known = match self {
            Eliminable::Unknown => false,
            Eliminable::No(tried) => most <= *tried,
            Eliminable::Yes(pattern) => pattern.len() == links.len(),
        };
        if !is_known {
            *self = Eliminable::of(alloc, links, most)?;
        }
        Ok(match self {
            Eliminable::Yes(pattern) => Some(pattern),
            _ => None,
        })
    }
}
