// IBOUND and the starting heads.
ghost use Rattle.std.specs.Prelude.{◌≡◌, IfOk, List};
ghost use Rattle.outside.specs.{TextMay, words, FileSet, ReadsOn};
ghost use Rattle.record_lines.specs.{Has, GivesText};
ghost use Rattle.bas_package.specs.{basics_of, HasBasics, bas_of, is_in_profile, option_line, head_item};

use array_reader::{has_keyword, next_line, number, read_layers};
use decimal_input::dec::Dec;
use model_types::{FlowModel, Grid, Listed};
use outside::{Code, Folder, InputFault, TextFault, text_fault};
use record_lines::{Line, Lines, Words};
use std::alloc::Global;

/// IBOUND and STRT for the cells of a grid.
#[tactic(auto, unfolding(crate::specs::Basics::basics_of))]
fn basics_of<F: Folder>(
    alloc: Global,
    file: &str,
    bytes: &[u8],
    folder: &mut F,
    grid: &Grid,
) -> Result<(Vec<i64>, Vec<Dec>), InputFault>
    requires text { TextMay (F.may folder.old) bytes.now }
    ensures folder { ReadsOn F.Folder folder.old folder.new result }
    ensures basics { (files : FileSet) → F.agrees folder.new files →
        Has (λ b. (b.0.items, b.1.items)) result (basics_of files file.now bytes.now grid.now) }
{
    let mut lines = Lines::new(bytes);
    lines.skip_comments();
    let (layers, rows, cols) = (grid.layers, grid.rows, grid.cols);
    option_line(alloc, &mut lines, file)?;
    let ibound = read_layers::<i64, F>(alloc, &mut lines, file, folder, layers, rows, cols)?;
    head_item(alloc, &mut lines, file)?;
    let strt = read_layers::<Dec, F>(alloc, &mut lines, file, folder, layers, rows, cols)?;
    Ok((ibound, strt))
}

/// The model with IBOUND and the starting heads STRT of a file of the basic package. `file` is the file's name,
/// for refusals, and `folder` has the files that its arrays name.
///
/// # Errors
/// The first item that is wrong is refused on its line; a read fault comes only from the folder.
/// (TM 6-A16, BAS6)
#[tactic(auto, unfolding(crate::specs::Basics::bas_of))]
pub fn read_bas<F: Folder>(
    alloc: Global,
    file: &str,
    bytes: &[u8],
    folder: &mut F,
    model: FlowModel,
) -> Result<FlowModel, InputFault>
    requires text { TextMay (F.may folder.old) bytes.now }
    ensures folder { ReadsOn F.Folder folder.old folder.new result }
    ensures model { (files : FileSet) → F.agrees folder.new files → Has (λ m. m) result (bas_of files file.now bytes.now model) }
    ensures form { IfOk result (HasBasics model) }
{
    match basics_of(alloc, file, bytes, folder, &model.grid) {
        Ok((ibound, strt)) => {
            folder.some_agree();
            Ok(FlowModel {
                ibound: Listed::new(ibound),
                strt: Listed::new(strt),
                ..model
            })
        }
        Err(fault) => {
            drop(model);
            Err(fault)
        }
    }
}

// The lines before the arrays.

/// Whether the option words are those of this profile: free format, no cross section, and no stop at a time
/// limit (CHTOCH).
fn is_in_profile(line: &Line) -> bool
    ensures { result ≡ is_in_profile (words line.now.bytes.now) }
{
    has_keyword(b"FREE", &mut Words::of(line))
        && !has_keyword(b"XSECTION", &mut Words::of(line))
        && !has_keyword(b"CHTOCH", &mut Words::of(line))
}

/// The line of options.
#[tactic(auto, unfolding(crate::specs::Basics::option_line))]
pub fn option_line(alloc: Global, lines: &mut Lines, file: &str) -> Result<(), TextFault>
    ensures { GivesText (λ _. tt) result lines.new (option_line file.now lines.old) }
{
    let line = next_line(alloc, lines, file)?;
    if !is_in_profile(&line) {
        return Err(text_fault(alloc, Code::OutOfProfile, file, line.number));
    }
    Ok(())
}

/// The line of HNOFLO, which is a number.
#[tactic(auto, unfolding(crate::specs::Basics::head_item))]
pub fn head_item(alloc: Global, lines: &mut Lines, file: &str) -> Result<(), TextFault>
    ensures { GivesText (λ _. tt) result lines.new (head_item file.now lines.old) }
{
    let line = next_line(alloc, lines, file)?;
    number(alloc, &mut Words::of(&line), file, line.number)?;
    Ok(())
}
