// The matrix of a system of slopes, and what its solutions take.
use crate::branch::Branch;
use crate::links::Links;
use crate::one_side::OneSide;
use multigrid::Matrix;
use multigrid::numbers::at;
use star_mesh::Pattern;
use std::alloc::AllocError;

// Operations of elimination that take as long as a visit.
const OPERATIONS: u64 = 8;

// Entries of a factor of which a solution takes as long as a visit.
const ENTRIES: u64 = 3;

/// The visits that making a factor takes.
pub fn visits_of_factor(pattern: &Pattern) -> u64 {
    pattern.operations / OPERATIONS
}

/// The visits that a solution by a factor takes.
pub fn visits_of_solution(pattern: &Pattern) -> u64 {
    pattern.entries() as u64 / ENTRIES
}

/// The bits of the sum of all slopes beyond 61.
pub fn scale_of(slopes: &[i64]) -> u32 {
    let sum = slopes.iter().fold(
        0_u128,
        |sum, slope| sum.saturating_add(slope.unsigned_abs() as u128),
    );
    67_u32.saturating_sub(sum.leading_zeros())
}

// Adds the row of a cell to the matrix.
fn add_cell(
    matrix: &mut Matrix,
    links: &Links,
    slopes: &[i64],
    scale: u32,
    cell: usize,
) -> Result<(), AllocError> {
    let slope = at(slopes, cell);
    if slope == 0 {
        return matrix.close_row(1);
    }
    let mut sum = 0_i64;
    for link in links.at(cell) {
        let weight = Branch::of(link).lo.wrapping_shr(scale);
        sum = sum.saturating_add(weight);
        if weight > 0 && at(slopes, link.cell as usize) > 0 {
            matrix.couple(link.cell, weight)?;
        }
    }
    matrix.close_row(slope.wrapping_shr(scale).max(sum))
}

/// The matrix of these slopes, over 2^scale. A cell whose slope is 0 has no couplings.
pub fn matrix_of(side: &OneSide, slopes: &[i64], scale: u32) -> Result<Matrix, AllocError> {
    let (links, alloc) = (side.links, side.alloc);
    let mut matrix = Matrix::with_capacity(alloc, links.len(), links.count())?;
    for cell in 0..side.len() {
        add_cell(&mut matrix, links, slopes, scale, cell)?;
    }
    Ok(matrix)
}

/// How far each slope may be off: a few units, and 2^-20 of what it exceeds the cell's links by.
pub fn slack_of(side: &OneSide, slopes: &[i64]) -> Result<Vec<u64>, AllocError> {
    let mut slack = Vec::with_capacity(side.alloc, slopes.len())?;
    for (cell, slope) in slopes.iter().enumerate() {
        let links = side.links.at(cell).iter();
        let excess = links.fold(
            *slope,
            |excess, link| excess.saturating_sub(Branch::of(link).lo),
        );
        slack.push(16_u64.saturating_add(excess.max(0).unsigned_abs() >> 20))?;
    }
    Ok(slack)
}
