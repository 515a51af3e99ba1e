// The problem of one step.
ghost use Rattle.std.specs.Prelude.{◌≡◌, ◌<◌, ◌↔◌, All, IsTrue, length};
ghost use Rattle.step_problem.specs.Entries.{entries_at};
ghost use Rattle.step_problem.specs.Conditions.{CellFits, IsHead, IsProblem};

use crate::entry::Cell;
use std::marker::Model;

/// The greatest magnitude of a head, in units of 10^-9 length units.
pub const HEAD_LIMIT: i64 = 4_000_000_000_000_000_000;

/// Whether a head is in range.
pub fn is_head(head: i64) -> bool
    ensures { IsTrue result ↔ IsHead head }
{
    -HEAD_LIMIT <= head && head <= HEAD_LIMIT
}

/// Whether all these heads are in range.
pub fn are_heads(heads: &[i64]) -> bool
    ensures { IsTrue result ↔ All IsHead heads.now }
{
    heads.iter().all(|head| is_head(*head))
}

/// The variable cells of one step, by ascending cell number.
#[derive(Drop)]
pub struct Problem {
    cells: Vec<Cell>,
}

impl Model for Problem {
    ghost use Rattle.std.specs.Prelude.{List};
    ghost use Rattle.step_problem.specs.Entries.{Entries};
    ghost use Rattle.step_problem.specs.Conditions.{IsProblem};

    ghost Value = { List Entries };

    ghost view = { λ p. p.cells.items };

    ghost invariant = { λ p. IsProblem p.cells.items };
}

impl Problem {
    /// The problem of these cells. `fits` tests the condition.
    pub fn new(cells: Vec<Cell>) -> Problem
        requires { IsProblem cells.items }
        ensures { result ≡ cells.items }
    {
        Problem { cells }
    }

    /// The number of variable cells.
    pub fn len(&self) -> usize
        ensures count { result ≡ length self.now }
        ensures fits { IsProblem self.now }
    {
        self.cells.len()
    }

    pub fn is_empty(&self) -> bool
        ensures { IsTrue result ↔ (length self.now ≡ 0) }
    {
        self.cells.is_empty()
    }

    /// Recalls the conditions on a problem, for a proof. It does nothing when it runs.
    pub fn recall_conditions(&self)
        ensures fits { IsProblem self.now }
    {
        let _cells = &self.cells;
    }

    /// The cell of an index.
    pub fn cell(&self, index: usize) -> &Cell
        requires { index < length self.now }
        ensures { result.now ≡ entries_at self.now index }
    {
        &self.cells[index]
    }

    // The cell, with the conditions on it.
    pub(crate) fn fitting_cell(&self, index: usize) -> &Cell
        requires { index < length self.now }
        ensures is { result.now ≡ entries_at self.now index }
        ensures fits { CellFits result.now }
    {
        &self.cells[index]
    }
}
