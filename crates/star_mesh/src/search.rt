// Breadth-first search of a part of a matrix's unknowns.
use crate::lists::Span;
use multigrid::Matrix;
use multigrid::numbers::{NONE, label_at, put};
use std::alloc::{AllocError, Global};

/// The unknowns that were reached, in the order of the search, and the level of each. Couplings lead to no level but the same one and the next ones.
#[derive(Drop)]
pub struct Search {
    pub reached: Vec<u32>,
    // Only the unknowns of the part that are not reached yet have none.
    levels: Vec<u32>,
}

impl Search {
    pub fn new(alloc: Global, count: usize) -> Result<Search, AllocError> {
        Ok(Search {
            reached: Vec::with_capacity(alloc, count)?,
            levels: vec![in alloc; 0; count]?,
        })
    }

    fn level(&self, unknown: u32) -> u32 {
        label_at(self.levels.as_slice(), unknown as usize)
    }

    fn reach(&mut self, unknown: u32, level: u32) -> Result<(), AllocError> {
        put(self.levels.as_mut_slice(), unknown as usize, level);
        self.reached.push(unknown)?;
        Ok(())
    }

    // Reaches the unknowns that one is coupled with.
    fn reach_around(&mut self, matrix: &Matrix, unknown: u32) -> Result<(), AllocError> {
        let next = self.level(unknown).saturating_add(1);
        let row = matrix.row(unknown as usize);
        for coupling in matrix.couplings(&row) {
            if self.level(coupling.other) == NONE {
                self.reach(coupling.other, next)?;
            }
        }
        Ok(())
    }

    // Reaches the component of an unknown. Its first level is the one after those so far.
    fn reach_component(&mut self, matrix: &Matrix, from: u32) -> Result<(), AllocError> {
        let level = match self.reached.last() {
            Some(last) => self.level(*last).saturating_add(1),
            None => 0,
        };
        let first = self.reached.len();
        self.reach(from, level)?;
        for place in first..matrix.len() {
            let Some(unknown) = self.reached.get(place).copied() else {
                break;
            };
            self.reach_around(matrix, unknown)?;
        }
        Ok(())
    }

    /// Searches a part from the unknown that the last search reached last, if that is of the part: it is far off.
    pub fn search(&mut self, matrix: &Matrix, part: &[u32]) -> Result<(), AllocError> {
        let last = self.reached.last().copied();
        self.reached.clear();
        for unknown in part {
            put(self.levels.as_mut_slice(), *unknown as usize, NONE);
        }
        for unknown in last.iter().chain(part) {
            if self.level(*unknown) == NONE {
                self.reach_component(matrix, *unknown)?;
            }
        }
        Ok(())
    }

    /// The level whose first unknown has this place, as places of the order.
    pub fn level_from(&self, first: usize) -> Span {
        let end = self.reached.len();
        let level = self.level(label_at(self.reached.as_slice(), first));
        let later = Span::new(first, end).of(self.reached.as_slice()).iter();
        let count = later
            .take_while(|unknown| self.level(**unknown) == level)
            .count();
        let end = first.saturating_add(count);
        Span { first, end }
    }
}
