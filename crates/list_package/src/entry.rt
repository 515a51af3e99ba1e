// The entries of a list.
ghost use Rattle.std.specs.Prelude.{◌≡◌, Ok};
ghost use Rattle.outside.specs.{words};
ghost use Rattle.record_lines.specs.{GivesText, HasText};
ghost use Rattle.model_types.specs.{HasSize};
ghost use Rattle.list_package.specs.{cell_at, entry_of, entry_at, is_left_out, no_marks, new_list};

use crate::columns::{first_fault, read_numbers};
use crate::kind::ListEntry;
use crate::marks::Marks;
use array_reader::{integer, next_line};
use decimal_input::dec::Dec;
use model_types::{CellId, Grid, cell_of};
use number_limits::within;
use outside::{Code, TextFault, text_fault};
use record_lines::{Line, Lines, Words, begins_with};
use std::alloc::Global;

/// The cell at a layer, row and column, which are counted from 1.
#[tactic(auto, unfolding(crate::specs::Entries::cell_at))]
fn cell_at(
    alloc: Global,
    file: &str,
    line: u32,
    grid: &Grid,
    layer: i64,
    row: i64,
    col: i64,
) -> Result<CellId, TextFault>
    requires size { HasSize grid.now }
    ensures { HasText (λ cell. cell) result (cell_at file.now line grid.now layer row col) }
{
    let (Some(k), Some(i), Some(j)) = (
        within(layer, grid.layers),
        within(row, grid.rows),
        within(col, grid.cols),
    ) else {
        return Err(text_fault(alloc, Code::CellOutside, file, line));
    };
    Ok(cell_of(grid, k, i, j))
}

/// The entry that the words of a line make, with its cell. Its numbers are put into `numbers`.
#[tactic(auto, unfolding(crate::specs::Entries::entry_of))]
fn entry_of<E: ListEntry>(
    alloc: Global,
    lists: E::Lists,
    words: &mut Words,
    file: &str,
    line: u32,
    grid: &Grid,
    marks: &Marks,
    numbers: &mut Vec<Dec>,
) -> Result<(E, CellId), TextFault>
    requires size { HasSize grid.now }
    ensures { HasText (λ e. e) result (entry_of (E.kind lists) file.now line grid.now marks.now words.old) }
{
    let layer = integer(alloc, words, file, line)?;
    let row = integer(alloc, words, file, line)?;
    let col = integer(alloc, words, file, line)?;
    let columns = E::columns(lists);
    read_numbers(alloc, words, file, line, columns, numbers)?;
    let cell = cell_at(alloc, file, line, grid, layer, row, col)?;
    if let Some(code) = first_fault(columns, numbers) {
        return Err(text_fault(alloc, code, file, line));
    }
    if marks.is_marked(cell.0) {
        return Err(text_fault(alloc, Code::BadProperty, file, line));
    }
    Ok((E::entry(lists, cell, numbers), cell))
}

fn is_left_out(line: &Line) -> bool
    ensures { result ≡ is_left_out (words line.now.bytes.now) }
{
    begins_with(b"OPEN/CLOSE", line) || begins_with(b"EXTERNAL", line) || begins_with(b"SFAC", line)
}

/// The next entry of a list. Its cell is marked.
#[tactic(auto, unfolding(crate::specs::Entries::entry_at))]
fn entry_at<E: ListEntry>(
    alloc: Global,
    lists: E::Lists,
    lines: &mut Lines,
    file: &str,
    grid: &Grid,
    marks: &mut Marks,
    numbers: &mut Vec<Dec>,
) -> Result<E, TextFault>
    requires size { HasSize grid.now }
    ensures { GivesText (λ e. e) result (marks.new, lines.new) (entry_at (E.kind lists) file.now grid.now (marks.old, lines.old)) }
{
    let line = next_line(alloc, lines, file)?;
    if is_left_out(&line) {
        return Err(text_fault(alloc, Code::OutOfProfile, file, line.number));
    }
    let mut words = Words::of(&line);
    let (entry, cell) = entry_of::<E>(
        alloc,
        lists,
        &mut words,
        file,
        line.number,
        grid,
        marks,
        numbers,
    )?;
    marks.mark(cell.0);
    Ok(entry)
}

fn no_marks<E: ListEntry>(alloc: Global, lists: E::Lists, grid: &Grid) -> Result<Marks, TextFault>
    requires size { HasSize grid.now }
    ensures { HasText (λ m. m) result (Ok (no_marks (E.kind lists) grid.now)) }
{
    let count = if E::is_once(lists) {
        grid.cell_count()
    } else {
        0
    };
    Ok(Marks::new(alloc, count as usize)?)
}

/// Reads a list of `count` entries, each cell at most once if the package requires that.
#[tactic(auto, unfolding(crate::specs::Entries::new_list))]
pub fn new_list<E: ListEntry>(
    alloc: Global,
    lists: E::Lists,
    lines: &mut Lines,
    file: &str,
    grid: &Grid,
    count: u32,
) -> Result<Vec<E>, TextFault>
    requires size { HasSize grid.now }
    ensures { GivesText (λ v. v.items) result lines.new (new_list (E.kind lists) file.now grid.now count lines.old) }
{
    let mut marks = no_marks::<E>(alloc, lists, grid)?;
    let mut list = Vec::new(alloc);
    let mut numbers = Vec::new(alloc);
    for _ in 0..count {
        let entry = entry_at::<E>(alloc, lists, lines, file, grid, &mut marks, &mut numbers)?;
        list.push(entry)?;
    }
    Ok(list)
}
