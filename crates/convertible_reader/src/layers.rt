// The arrays of the layers, with SY.
ghost use Rattle.std.specs.Prelude.{◌≡◌, IfOk, List};
ghost use Rattle.model_types.specs.{no_number};
ghost use Rattle.lpf_package.specs.{nth_layer};
ghost use Rattle.outside.specs.{FileSet, ReadsOn};
ghost use Rattle.record_lines.specs.{Gives, LinesMay};
ghost use Rattle.convertible_reader.specs.{layer_at, layer_properties, layers_of, with_layer, yield_layer};

use crate::settings::LayerSettings;
use array_reader::{append, layer_or};
use decimal_input::dec::Dec;
use lpf_package::{Layer, Properties, add_layer, properties_of};
use model_types::layers::{dec_at, int_at};
use model_types::{Grid, Listed};
use outside::{Folder, InputFault};
use record_lines::Lines;
use std::alloc::{AllocError, Global};

/// The arrays of the layers read so far, and their specific yield.
#[derive(Drop)]
pub struct YieldProperties {
    pub properties: Properties,
    pub sy: Listed<Dec>,
}

/// SY of a layer: an array where the layer is convertible, else 0. None where there is no storage.
#[tactic(auto, unfolding(crate::specs::Flow::yield_layer))]
fn yield_layer<F: Folder>(
    alloc: Global,
    lines: &mut Lines,
    file: &str,
    folder: &mut F,
    layer: &Layer,
    convertible: bool,
) -> Result<Vec<Dec>, InputFault>
    requires lines { LinesMay (F.may folder.old) lines.old }
    ensures folder { ReadsOn F.Folder folder.old folder.new result }
    ensures lines { IfOk result (λ _. LinesMay (F.may folder.new) lines.new) }
    ensures array { (files : FileSet) → F.agrees folder.new files →
        Gives (λ v. v.items) result lines.new (yield_layer files file.now layer.now convertible lines.old) }
{
    if layer.stores {
        let (rows, cols) = (layer.rows, layer.cols);
        layer_or(alloc, lines, file, folder, rows, cols, convertible, zero())
    } else {
        Ok(Vec::new(alloc))
    }
}

fn zero() -> Dec
    ensures { result ≡ no_number }
{
    Dec {
        neg: false,
        digits: 0,
        exp: 0,
    }
}

/// The arrays of a layer: those of a confined layer up to SS, then SY, and VKCB where a bed lies below.
#[tactic(auto, unfolding(crate::specs::Flow::layer_properties))]
fn layer_properties<F: Folder>(
    alloc: Global,
    lines: &mut Lines,
    file: &str,
    folder: &mut F,
    layer: &Layer,
    convertible: bool,
) -> Result<YieldProperties, InputFault>
    requires lines { LinesMay (F.may folder.old) lines.old }
    ensures folder { ReadsOn F.Folder folder.old folder.new result }
    ensures lines { IfOk result (λ _. LinesMay (F.may folder.new) lines.new) }
    ensures properties { (files : FileSet) → F.agrees folder.new files →
        Gives (λ p. p) result lines.new (layer_properties files file.now layer.now convertible lines.old) }
{
    let (rows, cols) = (layer.rows, layer.cols);
    let without_bed = Layer {
        has_bed: false,
        ..*layer
    };
    let upper = properties_of(alloc, lines, file, folder, &without_bed)?;
    let sy = yield_layer(alloc, lines, file, folder, layer, convertible)?;
    let vkcb = layer_or(
        alloc,
        lines,
        file,
        folder,
        rows,
        cols,
        layer.has_bed,
        zero(),
    )?;
    Ok(YieldProperties {
        properties: Properties {
            vkcb: Listed::new(vkcb),
            ..upper
        },
        sy: Listed::new(sy),
    })
}

/// What is read for layer k, from 0.
fn nth_layer(grid: &Grid, settings: &LayerSettings, stores: bool, k: u32) -> Layer
    ensures { result ≡ nth_layer grid.now settings.now.chani stores k }
{
    Layer {
        rows: grid.rows,
        cols: grid.cols,
        chani: dec_at(settings.chani.as_slice(), k),
        stores,
        has_bed: int_at(grid.laycbd.as_slice(), k) != 0,
    }
}

/// The arrays of a layer after those of the layers above it.
fn with_layer(
    above: YieldProperties,
    layer: &YieldProperties,
) -> Result<YieldProperties, AllocError>
    ensures { IfOk result (λ p. p ≡ with_layer above layer.now) }
{
    Ok(YieldProperties {
        properties: add_layer(above.properties, &layer.properties)?,
        sy: append(above.sy, layer.sy.as_slice())?,
    })
}

/// One more layer.
#[tactic(auto, unfolding(crate::specs::Flow::layer_at))]
fn layer_at<F: Folder>(
    alloc: Global,
    lines: &mut Lines,
    file: &str,
    folder: &mut F,
    grid: &Grid,
    settings: &LayerSettings,
    stores: bool,
    k: u32,
    above: YieldProperties,
) -> Result<YieldProperties, InputFault>
    requires lines { LinesMay (F.may folder.old) lines.old }
    ensures folder { ReadsOn F.Folder folder.old folder.new result }
    ensures lines { IfOk result (λ _. LinesMay (F.may folder.new) lines.new) }
    ensures properties { (files : FileSet) → F.agrees folder.new files →
        Gives (λ p. p) result lines.new (layer_at files file.now grid.now settings.now stores k (above, lines.old)) }
{
    let layer = nth_layer(grid, settings, stores, k);
    let convertible = int_at(settings.laytyp.as_slice(), k) != 0;
    let properties = layer_properties(alloc, lines, file, folder, &layer, convertible)?;
    Ok(with_layer(above, &properties)?)
}

/// The arrays of `count` layers.
#[tactic(auto, unfolding(crate::specs::Flow::layers_of))]
pub fn layers_of<F: Folder>(
    alloc: Global,
    lines: &mut Lines,
    file: &str,
    folder: &mut F,
    grid: &Grid,
    settings: &LayerSettings,
    stores: bool,
    count: u32,
) -> Result<YieldProperties, InputFault>
    requires lines { LinesMay (F.may folder.old) lines.old }
    ensures folder { ReadsOn F.Folder folder.old folder.new result }
    ensures lines { IfOk result (λ _. LinesMay (F.may folder.new) lines.new) }
    ensures properties { (files : FileSet) → F.agrees folder.new files →
        Gives (λ p. p) result lines.new (layers_of files file.now grid.now settings.now stores count lines.old) }
{
    let mut properties = YieldProperties {
        properties: Properties {
            hk: Listed::new(Vec::new(alloc)),
            hani: Listed::new(Vec::new(alloc)),
            vka: Listed::new(Vec::new(alloc)),
            ss: Listed::new(Vec::new(alloc)),
            vkcb: Listed::new(Vec::new(alloc)),
        },
        sy: Listed::new(Vec::new(alloc)),
    };
    for k in 0..count {
        let more = layer_at(
            alloc, lines, file, folder, grid, settings, stores, k, properties,
        )?;
        properties = more;
    }
    Ok(properties)
}
