// The arrays of recharge or evapotranspiration that are in force.
ghost use Rattle.std.specs.Prelude.{◌≡◌, IfOk, List};
ghost use Rattle.outside.specs.{FileSet, ReadsOn};
ghost use Rattle.record_lines.specs.{LinesMay, Gives};
ghost use Rattle.array_reader.specs.{real_layer};
ghost use Rattle.model_types.specs.{HasSize};
ghost use Rattle.period_arrays.specs.{area_at, array_or, arrays_of, nothing_yet, layers_at};

use crate::flags::{ArraysReadAnew, Contents, flags_of};
use crate::layers::test_layers;
use array_reader::{next_line, read_int_layer, read_layer};
use decimal_input::dec::Dec;
use model_types::{Grid, Shared};
use outside::{Folder, InputFault};
use record_lines::{Lines, Words};
use std::alloc::Global;

/// The arrays of a period: a rate for each column of layers; of evapotranspiration a surface and an extinction depth;
/// and where the file names them, the layers. The others are empty.
#[derive(Drop)]
pub struct Area {
    pub surfaces: Shared<Dec>,
    pub rates: Shared<Dec>,
    pub depths: Shared<Dec>,
    pub layers: Shared<i64>,
}

/// The arrays of the period before, and whether there is one.
#[derive(Drop)]
pub struct InForce {
    pub listed: bool,
    pub area: Area,
}

impl InForce {
    /// Before the first period.
    pub fn nothing_yet() -> InForce
        ensures { result ≡ nothing_yet }
    {
        InForce {
            listed: false,
            area: Area {
                surfaces: Shared::empty(),
                rates: Shared::empty(),
                depths: Shared::empty(),
                layers: Shared::empty(),
            },
        }
    }
}

/// Reads an array of numbers anew, or leaves that of the period before.
fn read_reals_if<F: Folder>(
    alloc: Global,
    lines: &mut Lines,
    file: &str,
    folder: &mut F,
    grid: &Grid,
    anew: bool,
    array: &mut Shared<Dec>,
) -> Result<(), InputFault>
    requires lines { LinesMay (F.may folder.old) lines.old }
    ensures folder { ReadsOn F.Folder folder.old folder.new result }
    ensures lines { IfOk result (λ _. LinesMay (F.may folder.new) lines.new) }
    ensures array { (files : FileSet) → F.agrees folder.new files →
        Gives (λ _. array.new) result lines.new (array_or (real_layer files file.now grid.now.rows grid.now.cols) anew array.old lines.old) }
{
    if !anew {
        return Ok(());
    }
    let values = read_layer(alloc, lines, file, folder, grid.rows, grid.cols)?;
    *array = Shared::new(alloc, values)?;
    Ok(())
}

/// Reads an array of layers anew, each tested, or leaves that of the period before.
#[tactic(auto, unfolding(crate::specs::Areas::layers_at))]
fn read_layers_if<F: Folder>(
    alloc: Global,
    lines: &mut Lines,
    file: &str,
    folder: &mut F,
    grid: &Grid,
    anew: bool,
    array: &mut Shared<i64>,
) -> Result<(), InputFault>
    requires size { HasSize grid.now }
    requires lines { LinesMay (F.may folder.old) lines.old }
    ensures folder { ReadsOn F.Folder folder.old folder.new result }
    ensures lines { IfOk result (λ _. LinesMay (F.may folder.new) lines.new) }
    ensures array { (files : FileSet) → F.agrees folder.new files →
        Gives (λ _. array.new) result lines.new (array_or (layers_at files file.now grid.now) anew array.old lines.old) }
{
    if !anew {
        return Ok(());
    }
    let values = read_int_layer(alloc, lines, file, folder, grid.rows, grid.cols)?;
    test_layers(alloc, file, grid, &values)?;
    *array = Shared::new(alloc, values)?;
    Ok(())
}

impl Area {
    /// Reads the arrays of a period by its flags, in place of those of the period before.
    #[tactic(auto, unfolding(crate::specs::Areas::arrays_of))]
    fn read_by<F: Folder>(
        &mut self,
        alloc: Global,
        lines: &mut Lines,
        file: &str,
        folder: &mut F,
        grid: &Grid,
        flags: ArraysReadAnew,
    ) -> Result<(), InputFault>
        requires size { HasSize grid.now }
        requires lines { LinesMay (F.may folder.old) lines.old }
        ensures folder { ReadsOn F.Folder folder.old folder.new result }
        ensures lines { IfOk result (λ _. LinesMay (F.may folder.new) lines.new) }
        ensures area { (files : FileSet) → F.agrees folder.new files →
            Gives (λ _. self.new) result lines.new (arrays_of files file.now grid.now flags self.old lines.old) }
    {
        read_reals_if(
            alloc,
            lines,
            file,
            folder,
            grid,
            flags.surface,
            &mut self.surfaces,
        )?;
        read_reals_if(
            alloc,
            lines,
            file,
            folder,
            grid,
            flags.rate,
            &mut self.rates,
        )?;
        read_reals_if(
            alloc,
            lines,
            file,
            folder,
            grid,
            flags.depth,
            &mut self.depths,
        )?;
        read_layers_if(
            alloc,
            lines,
            file,
            folder,
            grid,
            flags.layer,
            &mut self.layers,
        )
    }
}

/// Reads the arrays of the next period, which are then in force.
#[tactic(auto, unfolding(crate::specs::Areas::area_at))]
pub fn read_area<F: Folder>(
    alloc: Global,
    lines: &mut Lines,
    file: &str,
    folder: &mut F,
    grid: &Grid,
    contents: Contents,
    before: &mut InForce,
) -> Result<(), InputFault>
    requires size { HasSize grid.now }
    requires lines { LinesMay (F.may folder.old) lines.old }
    ensures folder { ReadsOn F.Folder folder.old folder.new result }
    ensures lines { IfOk result (λ _. LinesMay (F.may folder.new) lines.new) }
    ensures area { (files : FileSet) → F.agrees folder.new files →
        Gives (λ _. before.new.area) result (before.new, lines.new) (area_at contents files file.now grid.now (before.old, lines.old)) }
{
    let line = next_line(alloc, lines, file)?;
    let words = &mut Words::of(&line);
    let flags = flags_of(alloc, words, contents, file, line.number, before.listed)?;
    before
        .area
        .read_by(alloc, lines, file, folder, grid, flags)?;
    before.listed = true;
    Ok(())
}
