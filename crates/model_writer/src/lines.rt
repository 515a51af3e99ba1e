// Values as a line.
ghost use Rattle.std.specs.Prelude.{◌≡◌, ◌++◌, IfOk, ℕ, List, [], ◌∷◌, codes, map, max, fold, length};
ghost use Rattle.array_text.specs.{row_line, text};
ghost use Rattle.model_writer.specs.{line_bytes, spaced_words, entry_line};
ghost use Rattle.std.specs.List.{flat_map};
ghost use Rattle.decimal_input.specs.declared.dec.Dec.{Dec};
ghost use Rattle.model_types.specs.{place, HasSize};
ghost use Rattle.model_types.specs.declared.period.Period.{Period};
ghost use Rattle.name_file.specs.declared.package.Package.{Package};
ghost use Rattle.model_text.specs.{list_lines, period_list};

use crate::entries::ListEntry;
use crate::words::Word;
use model_types::{CellId, Grid, Period};
use name_file::Package;
use std::alloc::AllocError;

/// Appends values with a blank after each.
#[tactic(auto, using(crate::proofs::Texts::spaces, crate::proofs::Texts::texts))]
pub(crate) fn push_spaced<T: Word>(bytes: &mut Vec<u8>, values: &[T]) -> Result<(), AllocError>
    ensures { IfOk result (λ _. bytes.new.items ≡ bytes.old.items ++ spaced_words T.word values.now) }
{
    for value in values {
        value.push_to(bytes)?;
        bytes.push(b' ')?;
    }
    Ok(())
}

/// Appends values as a line.
#[tactic(auto, using(crate::proofs::Texts::line_ends, crate::proofs::Texts::texts))]
pub(crate) fn push_line<T: Word>(bytes: &mut Vec<u8>, values: &[T]) -> Result<(), AllocError>
    ensures { IfOk result (λ _. bytes.new.items ≡ bytes.old.items ++ line_bytes (row_line T.word values.now)) }
{
    let Some((last, front)) = values.split_last() else {
        bytes.push(b'\n')?;
        return Ok(());
    };
    push_spaced(bytes, front)?;
    last.push_to(bytes)?;
    bytes.push(b'\n')?;
    Ok(())
}

/// Appends the line of a value, and a 0.
#[tactic(auto, using(crate::proofs::Texts::texts), unfolding(crate::specs::Lists::line_bytes, array_text::specs::Lines::line_text))]
pub(crate) fn push_with_zero<T: Word>(bytes: &mut Vec<u8>, value: &T) -> Result<(), AllocError>
    ensures { IfOk result (λ _. bytes.new.items ≡ bytes.old.items ++ line_bytes (T.word value.now ∷ codes "0" ∷ [])) }
{
    value.push_to(bytes)?;
    bytes.extend_from_slice(b" 0\n")
}

// The files of list packages.

/// The layer, the row and the column of a cell, each counted from 1.
fn place_of(grid: &Grid, cell: CellId) -> [usize; 3]
    requires { HasSize grid.now }
    ensures { result ≡ place grid.now cell.0 }
{
    let cell = cell.0 as usize;
    let cols = grid.cols as usize;
    [
        cell / grid.layer_size() as usize + 1,
        cell / cols % grid.rows as usize + 1,
        cell % cols + 1,
    ]
}

#[tactic(auto, using(crate::proofs::ListTexts::entry_bytes, crate::proofs::Texts::texts))]
fn push_entry<E: ListEntry>(bytes: &mut Vec<u8>, grid: &Grid, entry: &E) -> Result<(), AllocError>
    requires { HasSize grid.now }
    ensures { IfOk result (λ _. bytes.new.items ≡ bytes.old.items
        ++ line_bytes (entry_line grid.now E.number E.numbers entry.now)) }
{
    push_spaced(bytes, &place_of(grid, entry.cell()))?;
    entry.push_numbers(bytes)
}

#[tactic(auto, using(crate::proofs::ListTexts::items, crate::proofs::Texts::texts))]
fn push_entries<E: ListEntry>(
    bytes: &mut Vec<u8>,
    grid: &Grid,
    list: &[E],
) -> Result<(), AllocError>
    requires { HasSize grid.now }
    ensures { IfOk result (λ _. bytes.new.items ≡ bytes.old.items ++ text (map (entry_line grid.now E.number E.numbers) list.now)) }
{
    for entry in list {
        push_entry(bytes, grid, entry)?;
    }
    Ok(())
}

#[tactic(auto, using(crate::proofs::ListTexts::period_bytes, crate::proofs::Texts::texts))]
fn push_list<E: ListEntry>(bytes: &mut Vec<u8>, grid: &Grid, list: &[E]) -> Result<(), AllocError>
    requires { HasSize grid.now }
    ensures { IfOk result (λ _. bytes.new.items ≡ bytes.old.items ++ text (period_list grid.now E.number E.numbers list.now)) }
{
    push_with_zero(bytes, &list.len())?;
    push_entries(bytes, grid, list)
}

/// The greatest number of entries of a period's list.
fn most_entries<E: ListEntry>(kind: Package, periods: &[Period]) -> usize
    ensures { result ≡ fold max 0 (map length (map (E.list kind) periods.now)) }
{
    let mut most = 0;
    for period in periods {
        most = most.max(E::list_in(kind, period).len());
    }
    most
}

#[tactic(auto, using(crate::proofs::ListTexts::items, crate::proofs::Texts::texts))]
fn push_lists_of_periods<E: ListEntry>(
    bytes: &mut Vec<u8>,
    kind: Package,
    grid: &Grid,
    periods: &[Period],
) -> Result<(), AllocError>
    requires { HasSize grid.now }
    ensures { IfOk result (λ _. bytes.new.items ≡ bytes.old.items
        ++ text (flat_map (period_list grid.now E.number E.numbers) (map (E.list kind) periods.now))) }
{
    for period in periods {
        push_list(bytes, grid, E::list_in(kind, period))?;
    }
    Ok(())
}

/// Appends the file of a list package.
#[tactic(auto, using(crate::proofs::ListTexts::lists_bytes, crate::proofs::Texts::texts))]
pub(crate) fn push_lists<E: ListEntry>(
    bytes: &mut Vec<u8>,
    kind: Package,
    grid: &Grid,
    periods: &[Period],
) -> Result<(), AllocError>
    requires { HasSize grid.now }
    ensures { IfOk result (λ _. bytes.new.items ≡ bytes.old.items
        ++ text (list_lines grid.now E.number E.numbers (map (E.list kind) periods.now))) }
{
    push_with_zero(bytes, &most_entries::<E>(kind, periods))?;
    push_lists_of_periods::<E>(bytes, kind, grid, periods)
}
