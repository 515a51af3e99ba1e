// The first line, and the lists by layer.
ghost use Rattle.std.specs.Prelude.{◌≡◌, IfOk, List};
ghost use Rattle.record_lines.specs.{GivesText, Gives, LinesMay};
ghost use Rattle.lpf_package.specs.{option_line, settings_of, layer_at, layers_of, nth_layer};
ghost use Rattle.outside.specs.{FileSet, ReadsOn};

use crate::layer::{Layer, Properties, add_layer, properties_of};
use array_reader::{has_keyword, integer, next_line, number, plain_ints, plain_reals, zero_list};
use decimal_input::dec::Dec;
use model_types::layers::{dec_at, int_at};
use model_types::{Grid, Listed};
use outside::{Code, Folder, InputFault, TextFault, text_fault};
use record_lines::{Lines, Words};
use std::alloc::Global;

/// CHANI and LAYVKA, by layer.
#[derive(Drop)]
pub struct Settings {
    pub chani: Listed<Dec>,
    pub layvka: Listed<i64>,
}

/// The first line: whether SS is a storage coefficient.
#[tactic(auto, unfolding(crate::specs::Flow::option_line))]
pub fn option_line(alloc: Global, lines: &mut Lines, file: &str) -> Result<bool, TextFault>
    ensures { GivesText (λ b. b) result lines.new (option_line file.now lines.old) }
{
    let line = next_line(alloc, lines, file)?;
    let mut words = Words::of(&line);
    integer(alloc, &mut words, file, line.number)?;
    number(alloc, &mut words, file, line.number)?;
    let parameters = integer(alloc, &mut words, file, line.number)?;
    if parameters > 0 {
        return Err(text_fault(alloc, Code::OutOfProfile, file, line.number));
    }
    Ok(has_keyword(b"STORAGECOEFFICIENT", &mut words))
}

/// The lists by layer: LAYTYP and LAYAVG, which are 0, CHANI, LAYVKA, and LAYWET, which is 0.
#[tactic(auto, unfolding(crate::specs::Flow::settings_of))]
pub fn settings_of(
    alloc: Global,
    lines: &mut Lines,
    file: &str,
    layers: u32,
) -> Result<Settings, TextFault>
    ensures settings { GivesText (λ s. s) result lines.new (settings_of file.now layers lines.old) }
{
    zero_list(alloc, lines, file, layers)?;
    zero_list(alloc, lines, file, layers)?;
    let chani = plain_reals(alloc, lines, file, layers)?;
    let layvka = plain_ints(alloc, lines, file, layers)?;
    zero_list(alloc, lines, file, layers)?;
    Ok(Settings {
        chani: Listed::new(chani),
        layvka: Listed::new(layvka),
    })
}

// The arrays of all layers.

/// What is read for layer k, from 0.
fn nth_layer(grid: &Grid, chani: &[Dec], stores: bool, k: u32) -> Layer
    ensures { result ≡ nth_layer grid.now chani.now stores k }
{
    Layer {
        rows: grid.rows,
        cols: grid.cols,
        chani: dec_at(chani, k),
        stores,
        has_bed: int_at(grid.laycbd.as_slice(), k) != 0,
    }
}

/// One more layer.
#[tactic(auto, unfolding(crate::specs::Flow::layer_at))]
fn layer_at<F: Folder>(
    alloc: Global,
    lines: &mut Lines,
    file: &str,
    folder: &mut F,
    grid: &Grid,
    chani: &[Dec],
    stores: bool,
    k: u32,
    above: Properties,
) -> Result<Properties, InputFault>
    requires lines { LinesMay (F.may folder.old) lines.old }
    ensures folder { ReadsOn F.Folder folder.old folder.new result }
    ensures lines { IfOk result (λ _. LinesMay (F.may folder.new) lines.new) }
    ensures properties { (files : FileSet) → F.agrees folder.new files →
        Gives (λ p. p) result lines.new (layer_at files file.now grid.now chani.now stores k (above, lines.old)) }
{
    let layer = nth_layer(grid, chani, stores, k);
    let properties = properties_of(alloc, lines, file, folder, &layer)?;
    Ok(add_layer(above, &properties)?)
}

/// The arrays of `count` layers.
#[tactic(auto, unfolding(crate::specs::Flow::layers_of))]
pub fn layers_of<F: Folder>(
    alloc: Global,
    lines: &mut Lines,
    file: &str,
    folder: &mut F,
    grid: &Grid,
    chani: &[Dec],
    stores: bool,
    count: u32,
) -> Result<Properties, InputFault>
    requires lines { LinesMay (F.may folder.old) lines.old }
    ensures folder { ReadsOn F.Folder folder.old folder.new result }
    ensures lines { IfOk result (λ _. LinesMay (F.may folder.new) lines.new) }
    ensures properties { (files : FileSet) → F.agrees folder.new files →
        Gives (λ p. p) result lines.new (layers_of files file.now grid.now chani.now stores count lines.old) }
{
    let mut properties = Properties {
        hk: Listed::new(Vec::new(alloc)),
        hani: Listed::new(Vec::new(alloc)),
        vka: Listed::new(Vec::new(alloc)),
        ss: Listed::new(Vec::new(alloc)),
        vkcb: Listed::new(Vec::new(alloc)),
    };
    for k in 0..count {
        let more = layer_at(
            alloc, lines, file, folder, grid, chani, stores, k, properties,
        )?;
        properties = more;
    }
    Ok(properties)
}
