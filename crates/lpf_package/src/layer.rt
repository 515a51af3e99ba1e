// The arrays of one layer.
ghost use Rattle.std.specs.Prelude.{◌≡◌, IfOk, List};
ghost use Rattle.outside.specs.{FileSet, ReadsOn};
ghost use Rattle.record_lines.specs.{LinesMay, Gives};
ghost use Rattle.lpf_package.specs.{properties_of, joined_properties};

use array_reader::{append, layer_or, read_layer};
use decimal_input::dec::Dec;
use model_types::Listed;
use number_limits::is_positive;
use outside::{Folder, InputFault};
use record_lines::Lines;
use std::alloc::{AllocError, Global};

/// The arrays of the layers read so far: conductivity along rows, its ratio along columns, VKA, specific
/// storage, and the vertical conductivity of the beds below the layers.
#[derive(Drop)]
pub struct Properties {
    pub hk: Listed<Dec>,
    pub hani: Listed<Dec>,
    pub vka: Listed<Dec>,
    pub ss: Listed<Dec>,
    pub vkcb: Listed<Dec>,
}

/// What is read for a layer: the numbers of rows and columns, its CHANI, whether it has storage, and whether a bed lies below it.
#[derive(Clone, Copy)]
pub struct Layer {
    pub rows: u32,
    pub cols: u32,
    pub chani: Dec,
    pub stores: bool,
    pub has_bed: bool,
}

/// The arrays of a layer: HK, HANI where CHANI isn't above 0, VKA, SS, and VKCB where a bed lies below.
#[tactic(auto, unfolding(crate::specs::Flow::properties_of, crate::specs::Flow::storage_layer))]
pub fn properties_of<F: Folder>(
    alloc: Global,
    lines: &mut Lines,
    file: &str,
    folder: &mut F,
    layer: &Layer,
) -> Result<Properties, InputFault>
    requires lines { LinesMay (F.may folder.old) lines.old }
    ensures folder { ReadsOn F.Folder folder.old folder.new result }
    ensures lines { IfOk result (λ _. LinesMay (F.may folder.new) lines.new) }
    ensures properties { (files : FileSet) → F.agrees folder.new files → Gives (λ p. p) result lines.new (properties_of files file.now layer.now lines.old) }
{
    let (rows, cols) = (layer.rows, layer.cols);
    let none = Dec {
        neg: false,
        digits: 0,
        exp: 0,
    };
    let has_hani = !is_positive(layer.chani);
    let hk = read_layer(alloc, lines, file, folder, rows, cols)?;
    let chani = layer.chani;
    let hani = layer_or(alloc, lines, file, folder, rows, cols, has_hani, chani)?;
    let vka = read_layer(alloc, lines, file, folder, rows, cols)?;
    let ss = if layer.stores {
        read_layer(alloc, lines, file, folder, rows, cols)?
    } else {
        Vec::new(alloc)
    };
    let vkcb = layer_or(alloc, lines, file, folder, rows, cols, layer.has_bed, none)?;
    Ok(Properties {
        hk: Listed::new(hk),
        hani: Listed::new(hani),
        vka: Listed::new(vka),
        ss: Listed::new(ss),
        vkcb: Listed::new(vkcb),
    })
}

/// The arrays of a layer after those of the layers above it.
pub fn add_layer(above: Properties, layer: &Properties) -> Result<Properties, AllocError>
    ensures { IfOk result (λ p. p ≡ joined_properties above layer.now) }
{
    Ok(Properties {
        hk: append(above.hk, layer.hk.as_slice())?,
        hani: append(above.hani, layer.hani.as_slice())?,
        vka: append(above.vka, layer.vka.as_slice())?,
        ss: append(above.ss, layer.ss.as_slice())?,
        vkcb: append(above.vkcb, layer.vkcb.as_slice())?,
    })
}
