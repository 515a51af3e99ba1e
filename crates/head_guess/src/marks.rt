// A set of cells.
use std::alloc::{AllocError, Global};

/// Cells that are to be visited, a bit for each.
#[derive(Drop)]
pub struct Marks {
    words: Vec<u64>,
}

/// The cells of one word.
pub const CELLS: usize = 64;

/// A sweep over the cells of a word in ascending order, or in descending order.
#[derive(Clone, Copy)]
pub struct Sweep {
    word: usize,
    is_down: bool,
    // The places that it has not passed.
    open: u64,
}

impl Sweep {
    pub fn new(word: usize, is_down: bool) -> Sweep {
        Sweep {
            word,
            is_down,
            open: u64::MAX,
        }
    }

    // Of these places, the next one of the sweep, which it passes.
    fn pass_place(&mut self, places: u64) -> u32 {
        if self.is_down {
            let place = 63_u32.saturating_sub(places.leading_zeros());
            self.open = 1_u64.wrapping_shl(place).wrapping_sub(1);
            return place;
        }
        let place = places.trailing_zeros();
        self.open = u64::MAX.wrapping_shl(place).wrapping_shl(1);
        place
    }
}

impl Marks {
    pub fn new(alloc: Global, cells: usize) -> Result<Marks, AllocError> {
        Ok(Marks {
            words: vec![in alloc; 0; cells / CELLS + 1]?,
        })
    }

    /// The number of words.
    pub fn len(&self) -> usize {
        self.words.len()
    }

    /// Whether a word has a cell.
    pub fn has_any(&self, word: usize) -> bool {
        self.words.get(word).is_some_and(|word| *word != 0)
    }

    /// Adds a cell if `is_in`.
    pub fn set_if(&mut self, cell: usize, is_in: bool) {
        if let Some(word) = self.words.as_mut_slice().get_mut(cell / CELLS) {
            *word |= (is_in as u64).wrapping_shl((cell % CELLS) as u32);
        }
    }

    /// Removes the next cell of a sweep from the set, and returns it. Cells that the sweep has passed are left.
    pub fn take_next(&mut self, sweep: &mut Sweep) -> Option<usize> {
        let word = self.words.as_mut_slice().get_mut(sweep.word)?;
        let places = *word & sweep.open;
        if places == 0 {
            return None;
        }
        let place = sweep.pass_place(places);
        *word &= !1_u64.wrapping_shl(place);
        let first = sweep.word.saturating_mul(CELLS);
        Some(first.saturating_add(place as usize))
    }
}
