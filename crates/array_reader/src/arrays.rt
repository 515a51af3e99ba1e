ghost use Rattle.std.specs.Prelude.{◌≡◌, IfOk, List};
ghost use Rattle.outside.specs.{FileSet, ReadsOn};
ghost use Rattle.record_lines.specs.{LinesMay, Gives};
ghost use Rattle.array_reader.specs.{values_of, array_at, ControlMay, control_of, Has_good};

use crate::control::{Control, control_record};
use crate::line_items::next_line;
use crate::lists::{constants, free_rows};
use crate::numbers::Value;
use outside::{Folder, InputFault, read_input};
use record_lines::{Lines, Words};
use std::alloc::Global;

/// The values of an array by its control record.
#[tactic(auto, using(record_lines::proofs::Forward::lines_still))]
fn values_of<V: Value, F: Folder>(
    alloc: Global,
    lines: &mut Lines,
    file: &str,
    folder: &mut F,
    control: &Control<'_, V>,
    rows: u32,
    cols: u32,
) -> Result<Vec<V>, InputFault>
    requires good { Has_good V.Good control.now }
    requires name { ControlMay (F.may folder.old) (control_of control.now) }
    requires lines { LinesMay (F.may folder.old) lines.old }
    ensures folder { ReadsOn F.Folder folder.old folder.new result }
    ensures lines { IfOk result (λ _. LinesMay (F.may folder.new) lines.new) }
    ensures values { (files : FileSet) → F.agrees folder.new files →
        Gives (λ v. v.items) result lines.new
        (values_of V.kind files file.now rows cols lines.old (control_of control.now)) }
{
    match *control {
        Control::Constant(value) => {
            let count = rows as usize * cols as usize;
            Ok(constants(alloc, value, count)?)
        }
        Control::Internal(by) => Ok(free_rows(alloc, lines, file, Some(by), rows, cols)?),
        Control::Named(name, by) => {
            let bytes = read_input(alloc, folder, name)?;
            let mut inner = Lines::new(&bytes);
            Ok(free_rows(alloc, &mut inner, name, Some(by), rows, cols)?)
        }
    }
}

/// An array with its control record, `rows` rows of `cols` values, and the control record's line.
#[tactic(auto, unfolding(crate::specs::Arrays::array_at))]
pub fn read_array<V: Value, F: Folder>(
    alloc: Global,
    lines: &mut Lines,
    file: &str,
    folder: &mut F,
    rows: u32,
    cols: u32,
) -> Result<(Vec<V>, u32), InputFault>
    requires lines { LinesMay (F.may folder.old) lines.old }
    ensures folder { ReadsOn F.Folder folder.old folder.new result }
    ensures lines { IfOk result (λ _. LinesMay (F.may folder.new) lines.new) }
    ensures array { (files : FileSet) → F.agrees folder.new files →
        Gives (λ x. (x.0.items, x.1)) result lines.new (array_at V.kind files file.now rows cols lines.old) }
{
    let line = next_line(alloc, lines, file)?;
    let mut words = Words::of(&line);
    let control = control_record(alloc, &mut words, file, line.number)?;
    let values = values_of(alloc, lines, file, folder, &control, rows, cols)?;
    Ok((values, line.number))
}
