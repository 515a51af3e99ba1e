// The bounds of the entries of each cell.
ghost use Rattle.std.specs.Prelude.{◌≡◌, ◌<◌, ◌≤◌, ◌∷◌, ◌++◌, All, List, ℕ, [], length, IfOk};
ghost use Rattle.model_types.specs.declared.entry.Entry.{Entry as DeclaredEntry};
ghost use Rattle.model_types.specs.{cell_of, entries_of, entries, IsEntryValid, most_cells};
ghost use Rattle.problem_builder.specs.LocalBounds.{AreAppended, AreEntriesIn, AreLocalBounds, IsEntryIn, kept_bounds, local_in, no_bounds};
ghost use Rattle.model_types.specs.declared.limits.Limits.TheVariants.{Wide};

use crate::entries::{CellEntries, LocalEntries};
use model_types::{Entry, Period};
use std::alloc::{AllocError, Global};
use std::marker::Model;

/// The bounds of the entries of a list, cell by cell. A cell without entries has a pointer alone.
#[derive(Drop)]
pub struct EntriesByCell {
    cells: Vec<Option<Box<LocalEntries>>>,
}

impl Model for EntriesByCell {
    ghost use Rattle.std.specs.Prelude.{List, map};
    ghost use Rattle.problem_builder.specs.LocalBounds.{LocalBounds, kept_bounds};

    ghost Value = { List LocalBounds };

    ghost view = { λ l. map kept_bounds l.cells.items };
}

fn cell_of(entry: &Entry) -> u32
    ensures { result ≡ cell_of entry.now }
{
    match entry {
        Entry::Well { cell, .. } => cell.0,
        Entry::River { cell, .. } => cell.0,
        Entry::Drain { cell, .. } => cell.0,
        Entry::General { cell, .. } => cell.0,
    }
}

fn some_entries(
    alloc: Global,
    kept: Option<Box<LocalEntries>>,
) -> Result<Box<LocalEntries>, AllocError>
    ensures { IfOk result (λ b. b.value ≡ kept_bounds kept) }
{
    match kept {
        Some(entries) => Ok(entries),
        None => Ok(Box::new(alloc, LocalEntries::none(alloc))?),
    }
}

// Appends the bounds of an entry of the cell.
fn add_to(
    kept: &mut Option<Box<LocalEntries>>,
    alloc: Global,
    entry: &Entry,
    cell: u32,
    s: u32,
) -> Result<(), AllocError>
    requires entry { IsEntryValid (most_cells Wide) entry.now }
    requires places { s ≤ 18 }
    ensures { IfOk result
        (λ _. (entries : List DeclaredEntry) → AreLocalBounds s cell (kept_bounds kept.old) entries →
        AreLocalBounds s cell (kept_bounds kept.new) (entries ++ entry.now ∷ [])) }
{
    let mut entries = some_entries(alloc, kept.take())?;
    entries.add(entry, cell, s)?;
    *kept = Some(entries);
    Ok(())
}

impl EntriesByCell {
    fn empty(alloc: Global, count: u32) -> Result<EntriesByCell, AllocError>
        ensures len { IfOk result (λ l. length l ≡ count) }
        ensures empty { IfOk result (λ l. (c : ℕ) → local_in l c ≡ no_bounds) }
    {
        let mut cells = Vec::new(alloc);
        for _cell in 0..count {
            cells.push(None)?;
        }
        Ok(EntriesByCell { cells })
    }

    fn add(&mut self, alloc: Global, entry: &Entry, s: u32) -> Result<(), AllocError>
        requires entry { IsEntryIn (length self.old) entry.now }
        requires places { s ≤ 18 }
        ensures len { IfOk result (λ _. length self.new ≡ length self.old) }
        ensures appended { IfOk result (λ _. AreAppended s self.old self.new (entry.now ∷ [])) }
    {
        let cell = cell_of(entry);
        add_to(&mut self.cells[cell as usize], alloc, entry, cell, s)?;
        Ok(())
    }

    // Appends the bounds of the entries of a list.
    fn with(self, alloc: Global, entries: &[Entry], s: u32) -> Result<EntriesByCell, AllocError>
        requires entries { All (IsEntryIn (length self)) entries.now }
        requires places { s ≤ 18 }
        ensures len { IfOk result (λ l. length l ≡ length self) }
        ensures appended { IfOk result (λ l. AreAppended s self l entries.now) }
    {
        let mut local = self;
        for entry in entries {
            local.add(alloc, entry, s)?;
        }
        Ok(local)
    }

    /// The bounds of the entries of WEL, RIV, DRN and GHB of a stress period, for each of `count` cells, with s digits
    /// of conductances.
    pub fn of_period(
        alloc: Global,
        period: &Period,
        count: u32,
        s: u32,
    ) -> Result<EntriesByCell, AllocError>
        requires entries { AreEntriesIn count period.now }
        requires places { s ≤ 18 }
        ensures len { IfOk result (λ l. length l ≡ count) }
        ensures are { IfOk result (λ l. (c : ℕ) → AreLocalBounds s c (local_in l c) (entries_of c (entries period.now))) }
    {
        let none = EntriesByCell::empty(alloc, count)?;
        let wells = none.with(alloc, period.stresses.wells.as_slice(), s)?;
        let rivers = wells.with(alloc, period.stresses.rivers.as_slice(), s)?;
        let drains = rivers.with(alloc, period.stresses.drains.as_slice(), s)?;
        let all = drains.with(alloc, period.stresses.generals.as_slice(), s)?;
        Ok(all)
    }

    /// The bounds of the entries of a cell.
    pub fn at(&self, cell: u32) -> CellEntries<'_>
        requires { cell < length self.now }
        ensures { result ≡ local_in self.now cell }
    {
        match &self.cells[cell as usize] {
            Some(entries) => CellEntries {
                wells: entries.wells.as_slice(),
                rivers: entries.rivers.as_slice(),
                drains: entries.drains.as_slice(),
                generals: entries.generals.as_slice(),
            },
            None => CellEntries {
                wells: &[],
                rivers: &[],
                drains: &[],
                generals: &[],
            },
        }
    }
}
