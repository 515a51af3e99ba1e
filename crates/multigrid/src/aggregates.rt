// Aggregates of a matrix's unknowns, by pairing each with its strongest neighbour.
use crate::matrix::{Coupling, Matrix};
use crate::numbers::{NONE, label_at, put};
use std::alloc::{AllocError, Global};

/// The aggregate of each unknown, and their number. An unknown in none has no couplings, so the smoother solves it alone.
#[derive(Drop)]
pub struct Aggregates {
    pub of: Vec<u32>,
    pub count: u32,
}

fn stronger(a: Option<Coupling>, b: Coupling) -> Option<Coupling> {
    match a {
        Some(a) if a.weight() >= b.weight() => Some(a),
        _ => Some(b),
    }
}

impl Aggregates {
    // Puts an unknown into an aggregate: a new one with its strongest free neighbour, if that coupling is at least a quarter
    // of the strongest one, else the strongest neighbour's. An unknown without couplings gets its own aggregate if `lone`.
    fn join(&mut self, unknown: usize, couplings: &[Coupling], lone: bool) {
        let of = self.of.as_mut_slice();
        let mut free = None;
        let mut any = None;
        for coupling in couplings {
            any = stronger(any, *coupling);
            if label_at(of, coupling.other as usize) == NONE {
                free = stronger(free, *coupling);
            }
        }
        let joined = match (any, free) {
            (Some(any), Some(free)) if free.weight() >= any.weight() / 4 => {
                put(of, free.other as usize, self.count);
                self.count
            }
            (Some(any), _) => label_at(of, any.other as usize),
            (None, _) if lone => self.count,
            (None, _) => return,
        };
        put(of, unknown, joined);
        if joined == self.count {
            self.count = self.count.saturating_add(1);
        }
    }
}

/// Aggregates of mostly two unknowns. An unknown without couplings is in none, or in its own if `lone`.
pub fn pairs(alloc: Global, matrix: &Matrix, lone: bool) -> Result<Aggregates, AllocError> {
    let mut pairs = Aggregates {
        of: vec![in alloc; NONE; matrix.len()]?,
        count: 0,
    };
    for unknown in 0..matrix.len() {
        if label_at(pairs.of.as_slice(), unknown) == NONE {
            pairs.join(unknown, matrix.couplings(&matrix.row(unknown)), lone);
        }
    }
    Ok(pairs)
}
