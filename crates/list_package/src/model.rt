// A model with the lists of a package.
ghost use Rattle.std.specs.Prelude.{◌≡◌, IfOk};
ghost use Rattle.record_lines.specs.{HasText};
ghost use Rattle.model_types.specs.{HasSize};
ghost use Rattle.list_package.specs.{lists_of, package_of};

use crate::header::item_line;
use crate::kind::ListEntry;
use crate::lists::read_periods;
use array_reader::integer;
use model_types::{FlowModel, Grid, Limits, Listed, Period};
use outside::TextFault;
use record_lines::{Lines, Words};
use std::alloc::Global;
use std::mem;

/// Puts the lists of a package's file into the periods.
#[tactic(auto, unfolding(crate::specs::Entries::lists_of))]
fn read_lists<E: ListEntry>(
    alloc: Global,
    limits: Limits,
    lists: E::Lists,
    file: &str,
    bytes: &[u8],
    grid: &Grid,
    periods: &mut [Period],
) -> Result<(), TextFault>
    requires size { HasSize grid.now }
    ensures { HasText (λ _. periods.new) result (lists_of limits (E.kind lists) file.now bytes.now grid.now periods.old) }
{
    let mut lines = Lines::new(bytes);
    lines.skip_comments();
    let line = item_line(alloc, &mut lines, file)?;
    integer(alloc, &mut Words::of(&line), file, line.number)?;
    read_periods::<E>(alloc, limits, lists, &mut lines, file, grid, periods)
}

/// The model with the lists of a package's file in its periods, by these limits. `file` is the file's name, for refusals.
/// A list that a period reuses is shared, so it is in memory once; given heads start again at their heads at the start.
///
/// # Errors
/// The first item that is wrong is refused on its line: TooManyEntries past the most entries of a list, NothingToReuse
/// where the first list is to be reused, OutOfProfile for parameters, another file's entries, or a given head that changes
/// in a steady period of growing steps; of an entry CellOutside, HeadTooLarge, or BadProperty, also where a list of given
/// heads has named the cell before. (TM 6-A16, WEL, RIV, DRN, GHB, CHD)
#[tactic(auto, unfolding(crate::specs::Entries::package_of))]
pub fn read_package<E: ListEntry>(
    alloc: Global,
    limits: Limits,
    lists: E::Lists,
    file: &str,
    bytes: &[u8],
    model: FlowModel,
) -> Result<FlowModel, TextFault>
    requires size { HasSize model.grid }
    ensures model { HasText (λ m. m) result (package_of limits (E.kind lists) file.now bytes.now model) }
    ensures grid { IfOk result (λ m. m.grid ≡ model.grid) }
{
    let mut model = model;
    let mut periods = mem::replace(&mut model.periods, Listed::new(Vec::new(alloc))).into_vec();
    let whole = periods.as_mut_slice();
    let read = read_lists::<E>(alloc, limits, lists, file, bytes, &model.grid, whole);
    model.periods = Listed::new(periods);
    match read {
        Ok(()) => Ok(model),
        Err(fault) => {
            drop(model);
            Err(fault)
        }
    }
}
