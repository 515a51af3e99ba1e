// Elimination, column by column, of weights and grounds.
use crate::lists::{Span, add};
use crate::pattern::Pattern;
use multigrid::Matrix;
use multigrid::numbers::{NONE, at, filled_value, label, label_at, list_of, put, width};
use std::alloc::{AllocError, Global};

/// A part of 1 is this number.
pub const WHOLE: u64 = 1 << 62;

// A weight times a part.
fn share(weight: u64, part: u64) -> u64 {
    let product = (weight as u128 * part as u128) >> 62;
    u64::try_from(product).unwrap_or(u64::MAX)
}

/// The quotient of weights by one diagonal.
#[derive(Clone, Copy)]
struct Divisor {
    // 2^(62 + bits) over the diagonal, which is below 2^bits.
    reciprocal: u64,
    bits: u32,
}

impl Divisor {
    fn new(diagonal: u64) -> Divisor {
        let bits = 64_u32.saturating_sub(diagonal.leading_zeros());
        let power = 1_u128.wrapping_shl(bits.saturating_add(62));
        let quotient = power.checked_div(diagonal as u128).unwrap_or(0);
        Divisor {
            reciprocal: u64::try_from(quotient).unwrap_or(u64::MAX),
            bits,
        }
    }

    // The part that a weight is of the diagonal.
    fn part(&self, weight: u64) -> u64 {
        let product = weight as u128 * self.reciprocal as u128;
        let part = product.wrapping_shr(self.bits);
        u64::try_from(part).unwrap_or(WHOLE).min(WHOLE)
    }
}

// Weights are raised by this number of bits, so that the greatest diagonal is below 2^61.
fn scale_of(matrix: &Matrix) -> u32 {
    let mut greatest = 0_i64;
    for unknown in 0..matrix.len() {
        greatest = greatest.max(matrix.row(unknown).pivot.weight);
    }
    61_u32.saturating_sub(width(greatest as i128))
}

/// A factor in the making.
#[derive(Drop)]
pub struct Elimination<'a> {
    pattern: &'a Pattern,
    /// Weights are those of the matrix times 2^scale.
    pub scale: u32,
    /// Of each entry: the part that its row has in the column's unknown.
    pub parts: Vec<u64>,
    /// Of each column: the sum of its ground and its weights as it is eliminated.
    pub diagonals: Vec<u64>,
    grounds: Vec<u64>,
    // The weights between the open column and each row.
    weights: Vec<u64>,
    // Of each row: the first of the columns whose next entry is in it. Of each column: the one after it there, and its next entry.
    firsts: Vec<u32>,
    nexts: Vec<u32>,
    entries: Vec<usize>,
}

impl Elimination<'_> {
    // Opens a column: its ground, and the weights of its unknown's couplings with later ones.
    fn open_column(&mut self, matrix: &Matrix, column: usize) {
        let scale = self.scale;
        let row = matrix.row(self.pattern.unknown_at(column));
        let mut ground = row.pivot.weight;
        for coupling in matrix.couplings(&row) {
            ground = ground.saturating_sub(coupling.weight());
            let place = self.pattern.place(coupling.other) as usize;
            if place > column {
                let weight = coupling.weight().max(0).unsigned_abs();
                add(
                    self.weights.as_mut_slice(),
                    place,
                    weight.wrapping_shl(scale),
                );
            }
        }
        let ground = ground.max(0).unsigned_abs().wrapping_shl(scale);
        add(self.grounds.as_mut_slice(), column, ground);
    }

    // Adds the weights that an earlier column's elimination puts between the open one, which has the first of these entries of it, and later
    // rows. Puts the column into the list of the row of its next entry.
    fn add_mesh(&mut self, column: usize, entries: Span) {
        let later = Span::new(entries.first.saturating_add(1), entries.end);
        let part = at(self.parts.as_slice(), entries.first);
        let weight = share(at(self.diagonals.as_slice(), column), part);
        let rows = self.pattern.rows_of(&later).iter();
        for (row, part) in rows.zip(later.of(self.parts.as_slice())) {
            let weight = share(weight, *part);
            add(self.weights.as_mut_slice(), *row as usize, weight);
        }
        self.enlist(column, later);
    }

    // Puts a column into the list of the row of the first of these entries, if there are any.
    fn enlist(&mut self, column: usize, entries: Span) {
        if let Some(row) = self.pattern.rows_of(&entries).first() {
            let row = *row as usize;
            put(self.entries.as_mut_slice(), column, entries.first);
            let next = label_at(self.firsts.as_slice(), row);
            put(self.nexts.as_mut_slice(), column, next);
            put(self.firsts.as_mut_slice(), row, label(column));
        }
    }

    // Adds what the elimination of all earlier columns puts into the open one.
    fn add_earlier(&mut self, column: usize) {
        let mut earlier = label_at(self.firsts.as_slice(), column);
        for _ in 0..column {
            if earlier == NONE {
                break;
            }
            let index = earlier as usize;
            earlier = label_at(self.nexts.as_slice(), index);
            let first = at(self.entries.as_slice(), index);
            let end = self.pattern.entries_of(index).end;
            self.add_mesh(index, Span::new(first, end));
        }
    }

    // Closes the open column: weights become parts of its diagonal, and its ground is shared among its rows by them.
    fn close(&mut self, column: usize) {
        let entries = self.pattern.entries_of(column);
        let rows = self.pattern.rows_of(&entries);
        let ground = at(self.grounds.as_slice(), column);
        let diagonal = rows.iter().fold(ground, |sum, row| {
            sum.saturating_add(at(self.weights.as_slice(), *row as usize))
        });
        let diagonal = diagonal.max(1);
        let divisor = Divisor::new(diagonal);
        let parts = entries.of_mut(self.parts.as_mut_slice());
        for (row, part) in rows.iter().zip(parts) {
            let row = *row as usize;
            *part = divisor.part(at(self.weights.as_slice(), row));
            put(self.weights.as_mut_slice(), row, 0);
            add(self.grounds.as_mut_slice(), row, share(ground, *part));
        }
        put(self.diagonals.as_mut_slice(), column, diagonal);
        self.enlist(column, entries);
    }
}

/// Eliminates all unknowns of a matrix that the pattern fits.
pub fn eliminate<'a>(
    alloc: Global,
    pattern: &'a Pattern,
    matrix: &Matrix,
) -> Result<Elimination<'a>, AllocError> {
    let (mut memory, count) = (Ok(()), pattern.len());
    let elimination = Elimination {
        pattern,
        scale: scale_of(matrix),
        parts: list_of(&mut memory, alloc, 0, pattern.entries()),
        diagonals: list_of(&mut memory, alloc, 0, count),
        grounds: list_of(&mut memory, alloc, 0, count),
        weights: list_of(&mut memory, alloc, 0, count),
        firsts: list_of(&mut memory, alloc, NONE, count),
        nexts: list_of(&mut memory, alloc, NONE, count),
        entries: list_of(&mut memory, alloc, 0, count),
    };
    let mut elimination = filled_value(elimination, memory)?;
    for column in 0..count {
        elimination.open_column(matrix, column);
        elimination.add_earlier(column);
        elimination.close(column);
    }
    Ok(elimination)
}
