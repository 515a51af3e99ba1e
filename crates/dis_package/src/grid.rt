// Widths and elevations.
ghost use Rattle.std.specs.Prelude.{◌≡◌, ◌-◌, IfOk, List};
ghost use Rattle.outside.specs.{FileSet, ReadsOn, TextMay};
ghost use Rattle.record_lines.specs.{LinesMay, Gives, Has};
ghost use Rattle.dis_package.specs.{IsBegun, widths, grid_of, model_of_grid, dis_of};

use crate::bottoms::bottoms_of;
use crate::frame::{Size, beds_of, frame_of};
use crate::periods::periods_of;
use array_reader::{next_line, read_array, read_layer};
use decimal_input::dec::Dec;
use model_types::{FlowModel, Grid, Limits, Listed, Period};
use number_limits::all_positive;
use outside::{Code, Folder, InputFault, TextFault, text_fault};
use record_lines::{Lines, Words};
use std::alloc::Global;

/// The widths of columns or rows, each above 0.
#[tactic(auto, unfolding(crate::specs::Grids::widths))]
fn widths<F: Folder>(
    alloc: Global,
    lines: &mut Lines,
    file: &str,
    folder: &mut F,
    count: u32,
) -> Result<Vec<Dec>, InputFault>
    requires lines { LinesMay (F.may folder.old) lines.old }
    ensures folder { ReadsOn F.Folder folder.old folder.new result }
    ensures lines { IfOk result (λ _. LinesMay (F.may folder.new) lines.new) }
    ensures widths { (files : FileSet) → F.agrees folder.new files → Gives (λ v. v.items) result lines.new (widths files file.now count lines.old) }
{
    let (values, line) = read_array::<Dec, F>(alloc, lines, file, folder, 1, count)?;
    if !all_positive(&values) {
        return Err(InputFault::from(text_fault(alloc, Code::BadGrid, file, line)));
    }
    Ok(values)
}

/// The widths and elevations, which follow LAYCBD.
#[tactic(auto, unfolding(crate::specs::Grids::grid_of))]
pub fn grid_of<F: Folder>(
    alloc: Global,
    lines: &mut Lines,
    file: &str,
    folder: &mut F,
    size: &Size,
    laycbd: Vec<i64>,
) -> Result<Grid, InputFault>
    requires lines { LinesMay (F.may folder.old) lines.old }
    ensures folder { ReadsOn F.Folder folder.old folder.new result }
    ensures lines { IfOk result (λ _. LinesMay (F.may folder.new) lines.new) }
    ensures grid { (files : FileSet) → F.agrees folder.new files → Gives (λ g. g) result lines.new (grid_of files file.now size.now laycbd.items lines.old) }
{
    let delr = widths(alloc, lines, file, folder, size.cols)?;
    let delc = widths(alloc, lines, file, folder, size.rows)?;
    let top = read_layer(alloc, lines, file, folder, size.rows, size.cols)?;
    let bottoms = bottoms_of(alloc, lines, file, folder, size, &laycbd, size.layers)?;
    Ok(Grid {
        layers: size.layers,
        rows: size.rows,
        cols: size.cols,
        delr: Listed::new(delr),
        delc: Listed::new(delc),
        top: Listed::new(top),
        bottom: bottoms.layers,
        laycbd: Listed::new(laycbd),
        bed_bottom: bottoms.beds,
    })
}

// The model as DIS begins it.

/// A model of which only this has been read.
fn begun_model(alloc: Global, grid: Grid, lenuni: i64, periods: Vec<Period>) -> FlowModel
    ensures { result ≡ model_of_grid grid lenuni periods.items }
{
    FlowModel {
        grid,
        lenuni,
        ibound: Listed::new(Vec::new(alloc)),
        strt: Listed::new(Vec::new(alloc)),
        layvka: Listed::new(Vec::new(alloc)),
        coefficient: false,
        hk: Listed::new(Vec::new(alloc)),
        hani: Listed::new(Vec::new(alloc)),
        vka: Listed::new(Vec::new(alloc)),
        ss: Listed::new(Vec::new(alloc)),
        vkcb: Listed::new(Vec::new(alloc)),
        nrchop: 0,
        nevtop: 0,
        periods: Listed::new(periods),
    }
}

/// The model with what a file of the discretization gives, by these limits: its grid and its stress periods, without
/// stresses.
/// `file` is the file's name, for refusals, and `folder` has the files that its arrays name.
///
/// # Errors
/// The first item that is wrong is refused on its line; a read fault comes only from the folder.
/// (TM 6-A16, DIS)
#[tactic(auto, unfolding(crate::specs::Frames::dis_of, crate::specs::Frames::head_of))]
pub fn read_dis<F: Folder>(
    alloc: Global,
    limits: Limits,
    file: &str,
    bytes: &[u8],
    folder: &mut F,
) -> Result<FlowModel, InputFault>
    requires text { TextMay (F.may folder.old) bytes.now }
    ensures folder { ReadsOn F.Folder folder.old folder.new result }
    ensures model { (files : FileSet) → F.agrees folder.new files → Has (λ m. m) result (dis_of limits files file.now bytes.now) }
    ensures form { IfOk result IsBegun }
{
    let mut lines = Lines::new(bytes);
    lines.skip_comments();
    let line = next_line(alloc, &mut lines, file)?;
    let mut words = Words::of(&line);
    let frame = frame_of(alloc, limits, &mut words, file, line.number)?;
    let laycbd = beds_of(alloc, &mut lines, file, frame.size.layers)?;
    let grid = grid_of(alloc, &mut lines, file, folder, &frame.size, laycbd)?;
    match periods_of(alloc, &mut lines, file, frame.periods) {
        Ok(periods) => {
            folder.some_agree();
            Ok(begun_model(alloc, grid, frame.lenuni, periods))
        }
        Err(fault) => {
            drop(grid);
            Err(InputFault::from(fault))
        }
    }
}
