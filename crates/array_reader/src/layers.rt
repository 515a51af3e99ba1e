ghost use Rattle.std.specs.Prelude.{◌≡◌, IfOk, List};
ghost use Rattle.outside.specs.{FileSet, ReadsOn};
ghost use Rattle.record_lines.specs.{LinesMay, Gives};
ghost use Rattle.array_reader.specs.{reals, layer_array, layers, real_layer, integer_layer, layer_or};

use crate::arrays::read_array;
use crate::constants;
use crate::numbers::Value;
use decimal_input::dec::Dec;
use outside::{Folder, InputFault};
use record_lines::Lines;
use std::alloc::Global;

/// A one-dimensional array of `count` numbers, with its control record.
#[tactic(auto, unfolding(crate::specs::Arrays::reals))]
pub fn read_reals<F: Folder>(
    alloc: Global,
    lines: &mut Lines,
    file: &str,
    folder: &mut F,
    count: u32,
) -> Result<Vec<Dec>, InputFault>
    requires lines { LinesMay (F.may folder.old) lines.old }
    ensures folder { ReadsOn F.Folder folder.old folder.new result }
    ensures lines { IfOk result (λ _. LinesMay (F.may folder.new) lines.new) }
    ensures array { (files : FileSet) → F.agrees folder.new files → Gives (λ v. v.items) result lines.new (reals files file.now count lines.old) }
{
    let (values, _) = read_array(alloc, lines, file, folder, 1, count)?;
    Ok(values)
}

/// A layer, with its control record.
#[tactic(auto, unfolding(crate::specs::Arrays::layer_array))]
fn layer_array<V: Value, F: Folder>(
    alloc: Global,
    lines: &mut Lines,
    file: &str,
    folder: &mut F,
    rows: u32,
    cols: u32,
) -> Result<Vec<V>, InputFault>
    requires lines { LinesMay (F.may folder.old) lines.old }
    ensures folder { ReadsOn F.Folder folder.old folder.new result }
    ensures lines { IfOk result (λ _. LinesMay (F.may folder.new) lines.new) }
    ensures layer { (files : FileSet) → F.agrees folder.new files →
        Gives (λ v. v.items) result lines.new (layer_array V.kind files file.now rows cols lines.old) }
{
    let (values, _) = read_array::<V, F>(alloc, lines, file, folder, rows, cols)?;
    Ok(values)
}

/// A layer of numbers, row by row, with its control record.
#[tactic(auto, unfolding(crate::specs::Arrays::real_layer))]
pub fn read_layer<F: Folder>(
    alloc: Global,
    lines: &mut Lines,
    file: &str,
    folder: &mut F,
    rows: u32,
    cols: u32,
) -> Result<Vec<Dec>, InputFault>
    requires lines { LinesMay (F.may folder.old) lines.old }
    ensures folder { ReadsOn F.Folder folder.old folder.new result }
    ensures lines { IfOk result (λ _. LinesMay (F.may folder.new) lines.new) }
    ensures array { (files : FileSet) → F.agrees folder.new files → Gives (λ v. v.items) result lines.new (real_layer files file.now rows cols lines.old) }
{
    layer_array(alloc, lines, file, folder, rows, cols)
}

/// A layer of integers, row by row, with its control record.
#[tactic(auto, unfolding(crate::specs::Arrays::integer_layer))]
pub fn read_int_layer<F: Folder>(
    alloc: Global,
    lines: &mut Lines,
    file: &str,
    folder: &mut F,
    rows: u32,
    cols: u32,
) -> Result<Vec<i64>, InputFault>
    requires lines { LinesMay (F.may folder.old) lines.old }
    ensures folder { ReadsOn F.Folder folder.old folder.new result }
    ensures lines { IfOk result (λ _. LinesMay (F.may folder.new) lines.new) }
    ensures array { (files : FileSet) → F.agrees folder.new files → Gives (λ v. v.items) result lines.new (integer_layer files file.now rows cols lines.old) }
{
    layer_array(alloc, lines, file, folder, rows, cols)
}

/// One array for each of `count` layers.
pub fn read_layers<V: Value, F: Folder>(
    alloc: Global,
    lines: &mut Lines,
    file: &str,
    folder: &mut F,
    count: u32,
    rows: u32,
    cols: u32,
) -> Result<Vec<V>, InputFault>
    requires lines { LinesMay (F.may folder.old) lines.old }
    ensures folder { ReadsOn F.Folder folder.old folder.new result }
    ensures lines { IfOk result (λ _. LinesMay (F.may folder.new) lines.new) }
    ensures layers { (files : FileSet) → F.agrees folder.new files →
        Gives (λ v. v.items) result lines.new (layers V.kind files file.now count rows cols lines.old) }
{
    let mut values = Vec::new(alloc);
    for _ in 0..count {
        let layer = layer_array::<V, F>(alloc, lines, file, folder, rows, cols)?;
        values.extend_from_slice(&layer)?;
    }
    Ok(values)
}

/// A layer of numbers where the file has it, else the same number in each of its cells.
#[tactic(auto, unfolding(crate::specs::Arrays::layer_or))]
pub fn layer_or<F: Folder>(
    alloc: Global,
    lines: &mut Lines,
    file: &str,
    folder: &mut F,
    rows: u32,
    cols: u32,
    is_there: bool,
    other: Dec,
) -> Result<Vec<Dec>, InputFault>
    requires lines { LinesMay (F.may folder.old) lines.old }
    ensures folder { ReadsOn F.Folder folder.old folder.new result }
    ensures lines { IfOk result (λ _. LinesMay (F.may folder.new) lines.new) }
    ensures layer { (files : FileSet) → F.agrees folder.new files →
        Gives (λ v. v.items) result lines.new (layer_or files file.now rows cols is_there other lines.old) }
{
    if is_there {
        read_layer(alloc, lines, file, folder, rows, cols)
    } else {
        let count = rows as usize * cols as usize;
        Ok(constants(alloc, other, count)?)
    }
}
