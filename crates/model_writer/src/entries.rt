// The entries of lists.
ghost use Rattle.std.specs.Prelude.{◌≡◌, ℕ, List, ◌++◌, length, ◌≤◌, IfOk};
ghost use Rattle.decimal_input.specs.declared.dec.Dec.{Dec};
ghost use Rattle.model_types.specs.{cell_of};
ghost use Rattle.model_types.specs.declared.period.Period.{Period};
ghost use Rattle.name_file.specs.declared.package.Package.{Package};
ghost use Rattle.array_text.specs.{row_line, number_word};
ghost use Rattle.model_text.specs.{heads_of, numbers_of};
ghost use Rattle.model_writer.specs.Lists.{line_bytes, entries_in};

use crate::lines::push_line;
use model_types::{CellId, Entry, Given, Period};
use name_file::Package;
use std::alloc::AllocError;

/// An entry of a list: a cell's number and the package's numbers.
pub(crate) trait ListEntry {
    ghost number: { Self → ℕ };

    ghost numbers: { Self → List Dec };

    ghost list: { Package → Period → List Self };

    fn cell(&self) -> CellId
        ensures { result.0 ≡ number self.now };

    /// Appends the numbers as a line.
    fn push_numbers(&self, bytes: &mut Vec<u8>) -> Result<(), AllocError>
        ensures some { 1 ≤ length (numbers self.now) }
        ensures line { IfOk result (λ _. bytes.new.items ≡ bytes.old.items ++ line_bytes (row_line number_word (numbers self.now))) };

    /// The list of a package in a period.
    fn list_in(kind: Package, period: &Period) -> &[Self]
        ensures { result.now ≡ list kind period.now };
}

impl ListEntry for Entry {
    ghost number = { cell_of };

    ghost numbers = { numbers_of };

    ghost list = { entries_in };

    fn cell(&self) -> CellId {
        match *self {
            Entry::Well { cell, .. }
            | Entry::River { cell, .. }
            | Entry::Drain { cell, .. }
            | Entry::General { cell, .. } => cell,
        }
    }

    fn push_numbers(&self, bytes: &mut Vec<u8>) -> Result<(), AllocError> {
        match *self {
            Entry::Well { q, .. } => push_line(bytes, &[q]),
            Entry::River {
                stage,
                cond,
                bottom,
                ..
            } => push_line(bytes, &[stage, cond, bottom]),
            Entry::Drain {
                elevation,
                cond,
                ..
            } => push_line(bytes, &[elevation, cond]),
            Entry::General { head, cond, .. } => push_line(bytes, &[head, cond]),
        }
    }

    fn list_in(kind: Package, period: &Period) -> &[Entry] {
        match kind {
            Package::Wel => period.stresses.wells.as_slice(),
            Package::Riv => period.stresses.rivers.as_slice(),
            Package::Drn => period.stresses.drains.as_slice(),
            Package::Ghb => period.stresses.generals.as_slice(),
            _ => &[],
        }
    }
}

impl ListEntry for Given {
    ghost number = { λ x. x.cell.0 };

    ghost numbers = { heads_of };

    ghost list = { λ kind p. p.stresses.given };

    fn cell(&self) -> CellId {
        self.cell
    }

    fn push_numbers(&self, bytes: &mut Vec<u8>) -> Result<(), AllocError> {
        push_line(bytes, &[self.shead, self.ehead])
    }

    fn list_in(_kind: Package, period: &Period) -> &[Given] {
        period.stresses.given.as_slice()
    }
}
