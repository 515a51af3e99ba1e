// The file of a package of arrays.
ghost use Rattle.std.specs.Prelude.{List};
ghost use Rattle.outside.specs.{TextMay, FileSet, ReadsOn};
ghost use Rattle.record_lines.specs.{GivesText, Has, HasText};
ghost use Rattle.model_types.specs.{HasSize};
ghost use Rattle.period_arrays.specs.{arrays_in, option_line};

use crate::flags::option_at;
use crate::package::ArrayPackage;
use crate::periods::read_periods;
use array_reader::integer;
use list_package::item_line;
use model_types::{Grid, Listed, Period};
use outside::{Folder, InputFault, TextFault};
use record_lines::{Lines, Words};
use std::alloc::Global;

/// The contents of a package's file: its option, and the periods with their arrays.
#[derive(Drop)]
pub struct ArrayFile {
    pub option: i64,
    pub periods: Listed<Period>,
}

/// The option, and after it a unit where the package has one.
#[tactic(auto, unfolding(crate::specs::Packages::option_line))]
fn option_line<P: ArrayPackage>(
    alloc: Global,
    lines: &mut Lines,
    file: &str,
) -> Result<i64, TextFault>
    ensures { GivesText (λ z. z) result lines.new (option_line P.kind file.now lines.old) }
{
    let line = item_line(alloc, lines, file)?;
    let mut words = Words::of(&line);
    let option = option_at(alloc, &mut words, file, line.number)?;
    if P::evaporates() {
        integer(alloc, &mut words, file, line.number)?;
    }
    Ok(option)
}

/// The option of a package's file, and the periods with their arrays. `file` is the file's name, for refusals, and
/// `folder` has the files that its arrays name. An array that a period reuses is shared, so it is in memory once.
///
/// # Errors
/// The first item that is wrong is refused. A read fault comes only from the folder.
#[tactic(auto, unfolding(crate::specs::Packages::arrays_in))]
pub fn read_arrays<P: ArrayPackage, F: Folder>(
    alloc: Global,
    file: &str,
    bytes: &[u8],
    folder: &mut F,
    grid: &Grid,
    ibound: &[i64],
    periods: Vec<Period>,
) -> Result<ArrayFile, InputFault>
    requires size { HasSize grid.now }
    requires text { TextMay (F.may folder.old) bytes.now }
    ensures folder { ReadsOn F.Folder folder.old folder.new result }
    ensures arrays_read { (files : FileSet) → F.agrees folder.new files →
        Has (λ a. a) result (arrays_in P.kind files file.now bytes.now grid.now ibound.now periods.items) }
{
    let mut lines = Lines::new(bytes);
    lines.skip_comments();
    let mut periods = periods;
    let option = option_line::<P>(alloc, &mut lines, file)?;
    let whole = periods.as_mut_slice();
    read_periods::<P, F>(
        alloc, &mut lines, file, folder, grid, ibound, &option, whole,
    )?;
    Ok(ArrayFile {
        option,
        periods: Listed::new(periods),
    })
}
