// Substitution with a factor, forward and back. Vectors are in the order of elimination.
use crate::elimination::WHOLE;
use crate::factor::Factor;
use crate::pattern::Pattern;
use multigrid::numbers::{at, clamp_long, put, width};

/// A flow by its leading bits.
#[derive(Clone, Copy)]
struct Leading {
    leading: i64,
    dropped: u32,
}

impl Leading {
    fn new(flow: i128) -> Leading {
        let dropped = width(flow).saturating_sub(60).min(62);
        Leading {
            leading: clamp_long(flow.wrapping_shr(dropped)),
            dropped,
        }
    }

    // A part of the flow, rounded down.
    fn part(&self, part: u64) -> i128 {
        let product = (self.leading as i128).wrapping_mul(part as i128);
        product.wrapping_shr(62_u32.saturating_sub(self.dropped))
    }
}

// The mean of later unknowns by these parts, rounded to the nearest number.
fn mean(rows: &[u32], parts: &[u64], unknowns: &[i64]) -> i128 {
    let mut sum = (WHOLE / 2) as i128;
    for (row, part) in rows.iter().zip(parts) {
        let product = (*part as i128).wrapping_mul(at(unknowns, *row as usize) as i128);
        sum = sum.wrapping_add(product);
    }
    sum.wrapping_shr(62)
}

impl Factor {
    /// Shares the flow into each unknown among the later ones, as its elimination does.
    pub fn substitute_forward(&mut self, pattern: &Pattern) {
        let flows = self.flows.as_mut_slice();
        for column in 0..pattern.len() {
            let flow = at(flows, column);
            if flow == 0 {
                continue;
            }
            let flow = Leading::new(flow);
            let entries = pattern.entries_of(column);
            let parts = entries.of(self.parts.as_slice());
            for (row, part) in pattern.rows_of(&entries).iter().zip(parts) {
                if let Some(other) = flows.get_mut(*row as usize) {
                    *other = other.wrapping_add(flow.part(*part));
                }
            }
        }
    }

    /// Finds each unknown from the later ones and the flow into it.
    pub fn substitute_back(&mut self, pattern: &Pattern) {
        let unknowns = self.unknowns.as_mut_slice();
        for column in (0..pattern.len()).rev() {
            let entries = pattern.entries_of(column);
            let parts = entries.of(self.parts.as_slice());
            let mean = mean(pattern.rows_of(&entries), parts, unknowns);
            let own = at(self.flows.as_slice(), column)
                .checked_div(at(self.diagonals.as_slice(), column) as i128)
                .unwrap_or(0);
            put(unknowns, column, clamp_long(mean.wrapping_add(own)));
        }
    }
}
