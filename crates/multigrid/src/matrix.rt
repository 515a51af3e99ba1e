// A sparse matrix by rows.
use crate::numbers::{at, clamp_long, label};
use std::alloc::{AllocError, Global};

/// An entry off the diagonal: the other unknown, and the weight, which is negated in the matrix. Its weight is in bytes, which need not be aligned, so
/// that an entry takes 12 bytes: a solution waits for memory.
#[derive(Clone, Copy)]
pub struct Coupling {
    pub other: u32,
    weight: [u8; 8],
}

impl Coupling {
    fn new(other: u32, weight: i64) -> Coupling {
        Coupling {
            other,
            weight: weight.to_le_bytes(),
        }
    }

    pub fn weight(self) -> i64 {
        i64::from_le_bytes(self.weight)
    }
}

/// An entry on the diagonal, at least 1, with its reciprocal, so that a quotient by it is a product.
#[derive(Clone, Copy)]
pub struct Pivot {
    pub weight: i64,
    // About 2^(61 + bits) over the weight, where it has `bits` bits.
    reciprocal: i64,
}

impl Pivot {
    fn new(weight: i64) -> Pivot {
        let weight = weight.max(1);
        let power = 1_i128.wrapping_shl(125_u32.saturating_sub(weight.leading_zeros()));
        let quotient = power.checked_div(weight as i128).unwrap_or(0);
        Pivot {
            weight,
            reciprocal: i64::try_from(quotient).unwrap_or(i64::MAX),
        }
    }

    // The bits of the weight but the first one.
    fn later_bits(&self) -> u32 {
        63_u32.saturating_sub(self.weight.leading_zeros())
    }

    /// An approximate quotient of a number by the weight.
    pub fn quotient(&self, x: i128) -> i64 {
        let x = clamp_long(x.wrapping_shr(self.later_bits()));
        clamp_long((x as i128 * self.reciprocal as i128).wrapping_shr(62))
    }

    /// The magnitude of a number over the weight, up to a factor of 2.
    pub fn size(&self, x: i128) -> u128 {
        x.wrapping_shr(self.later_bits()).unsigned_abs()
    }

    pub fn times(&self, x: i64) -> i128 {
        self.weight as i128 * x as i128
    }
}

/// A row's pivot, and the places of its couplings.
#[derive(Clone, Copy)]
pub struct Row {
    first: u32,
    end: u32,
    pub pivot: Pivot,
}

/// A symmetric matrix whose diagonal outweighs the couplings of each row. The last row can be open: couplings are added to it until it is closed.
#[derive(Drop)]
pub struct Matrix {
    rows: Vec<Row>,
    couplings: Vec<Coupling>,
    // The place where the open row begins.
    open: usize,
}

impl Matrix {
    pub fn new(alloc: Global) -> Matrix {
        Matrix {
            rows: Vec::new(alloc),
            couplings: Vec::new(alloc),
            open: 0,
        }
    }

    /// A matrix with memory for as many rows and couplings.
    pub fn with_capacity(
        alloc: Global,
        rows: usize,
        couplings: usize,
    ) -> Result<Matrix, AllocError> {
        Ok(Matrix {
            rows: Vec::with_capacity(alloc, rows)?,
            couplings: Vec::with_capacity(alloc, couplings)?,
            open: 0,
        })
    }

    pub fn len(&self) -> usize {
        self.rows.len()
    }

    /// Adds a coupling to the open row, and returns its place.
    pub fn couple(&mut self, other: u32, weight: i64) -> Result<usize, AllocError> {
        let place = self.couplings.len();
        self.couplings.push(Coupling::new(other, weight))?;
        Ok(place)
    }

    /// Adds to the weight of the open row's coupling with an unknown, if it is at this place; else adds the coupling. Returns its place.
    pub fn strengthen(
        &mut self,
        place: usize,
        other: u32,
        weight: i64,
    ) -> Result<usize, AllocError> {
        match self.couplings.as_mut_slice().get_mut(place) {
            Some(coupling) if place >= self.open && coupling.other == other => {
                let sum = coupling.weight().saturating_add(weight);
                *coupling = Coupling::new(other, sum);
                Ok(place)
            }
            _ => self.couple(other, weight),
        }
    }

    /// Closes the open row with its entry on the diagonal.
    pub fn close_row(&mut self, diagonal: i64) -> Result<(), AllocError> {
        let end = self.couplings.len();
        self.rows.push(Row {
            first: label(self.open),
            end: label(end),
            pivot: Pivot::new(diagonal),
        })?;
        self.open = end;
        Ok(())
    }

    /// The couplings of a row.
    pub fn couplings(&self, row: &Row) -> &[Coupling] {
        self.couplings
            .get(row.first as usize..row.end as usize)
            .unwrap_or(&[])
    }

    /// The sum of the other unknowns by the weights of a row's couplings.
    pub fn inflow(&self, row: &Row, unknowns: &[i64]) -> i128 {
        let mut sum = 0_i128;
        for coupling in self.couplings(row) {
            let other = at(unknowns, coupling.other as usize);
            sum = sum.wrapping_add(coupling.weight() as i128 * other as i128);
        }
        sum
    }

    /// What a residual is at an unknown, once the matrix times these unknowns is taken from it.
    pub fn residual_at(&self, unknown: usize, residual: &[i128], unknowns: &[i64]) -> i128 {
        let row = self.row(unknown);
        at(residual, unknown)
            .wrapping_add(self.inflow(&row, unknowns))
            .wrapping_sub(row.pivot.times(at(unknowns, unknown)))
    }

    /// Whether each residual is below 2^bits of its pivot.
    pub fn is_small(&self, residual: &[i128], bits: u32) -> bool {
        let most = 1_u128.wrapping_shl(bits);
        let mut rows = self.rows.iter().zip(residual);
        rows.all(|(row, residual)| row.pivot.size(*residual) < most)
    }

    /// The row of an unknown; a row without couplings past the last one.
    pub fn row(&self, unknown: usize) -> Row {
        self.rows.get(unknown).copied().unwrap_or(Row {
            first: 0,
            end: 0,
            pivot: Pivot::new(1),
        })
    }
}
