// Marks of the cells that a list has named.
ghost use Rattle.std.specs.Prelude.{◌≡◌, List, Bool, replicate, false, true, IfOk, slice_index_or, slice_set};

use std::alloc::{AllocError, Global};
use std::marker::Model;

/// A mark for each cell of a grid, or no marks at all. With marks an entry is tested without searching the list.
#[derive(Drop)]
pub struct Marks {
    marks: Vec<bool>,
}

impl Model for Marks {
    ghost Value = { List Bool };

    ghost view = { λ m. m.marks.items };
}

impl Marks {
    /// `count` marks, none of them set.
    pub fn new(alloc: Global, count: usize) -> Result<Marks, AllocError>
        ensures { IfOk result (λ m. m ≡ replicate count false) }
    {
        let marks = vec![in alloc; false; count]?;
        Ok(Marks { marks })
    }

    /// Whether a cell is marked. A cell past the marks isn't.
    pub fn is_marked(&self, cell: u32) -> bool
        ensures { result ≡ slice_index_or self.now cell false }
    {
        match self.marks.get(cell as usize) {
            Some(mark) => *mark,
            None => false,
        }
    }

    /// Marks a cell, unless it lies past the marks.
    pub fn mark(&mut self, cell: u32)
        ensures { self.new ≡ slice_set self.old cell true }
    {
        if let Some(mark) = self.marks.get_mut(cell as usize) {
            *mark = true;
        }
    }
}
