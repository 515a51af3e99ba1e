// The model with its properties, and its convertible layers.
ghost use Rattle.std.specs.Prelude.{◌≡◌, IfOk, List};
ghost use Rattle.outside.specs.{FileSet, ReadsOn, TextMay};
ghost use Rattle.record_lines.specs.{Has};
ghost use Rattle.lpf_package.specs.{HasFlow, SameBut};
ghost use Rattle.convertible_reader.specs.{AreLayersOf, contents_of, convertible_lpf_of};

use crate::layers::layers_of;
use crate::settings::{option_line, settings_of};
use lpf_package::{Contents, is_transient};
use model_types::{FlowModel, Grid};
use outside::{Folder, InputFault};
use record_lines::Lines;
use std::alloc::Global;
use water_table::ConvertibleLayers;

/// The contents of a file of the package, and its convertible layers.
#[tactic(auto, unfolding(crate::specs::Flow::contents_of))]
fn contents_of<F: Folder>(
    alloc: Global,
    file: &str,
    bytes: &[u8],
    folder: &mut F,
    grid: &Grid,
    stores: bool,
) -> Result<(Contents, ConvertibleLayers), InputFault>
    requires text { TextMay (F.may folder.old) bytes.now }
    ensures folder { ReadsOn F.Folder folder.old folder.new result }
    ensures contents { (files : FileSet) → F.agrees folder.new files → Has (λ c. c) result (contents_of files file.now bytes.now grid.now stores) }
{
    let mut lines = Lines::new(bytes);
    lines.skip_comments();
    let options = option_line(alloc, &mut lines, file)?;
    let settings = settings_of(alloc, &mut lines, file, options.thickstrt, grid.layers)?;
    let layers = layers_of(
        alloc,
        &mut lines,
        file,
        folder,
        grid,
        &settings,
        stores,
        grid.layers,
    )?;
    let contents = Contents {
        coefficient: options.coefficient,
        layvka: settings.layvka,
        properties: layers.properties,
    };
    let convertible = ConvertibleLayers {
        laytyp: settings.laytyp,
        sy: layers.sy,
    };
    Ok((contents, convertible))
}

/// The model with the properties of a file of the layer-property flow package, and its convertible layers. `file` is the
/// file's name, for refusals, and `folder` has the files that its arrays name. `ss` and `sy` are empty where no period is
/// transient; `sy` is 0 in layers with LAYTYP 0, and `vkcb` in layers without a bed.
///
/// # Errors
/// The first item that is wrong is refused on its line; a read fault comes only from the folder.
/// (TM 6-A16, LPF)
#[tactic(auto, unfolding(crate::specs::Flow::convertible_lpf_of))]
pub fn read_convertible_lpf<F: Folder>(
    alloc: Global,
    file: &str,
    bytes: &[u8],
    folder: &mut F,
    model: FlowModel,
) -> Result<(FlowModel, ConvertibleLayers), InputFault>
    requires text { TextMay (F.may folder.old) bytes.now }
    ensures folder { ReadsOn F.Folder folder.old folder.new result }
    ensures model { (files : FileSet) → F.agrees folder.new files → Has (λ x. x) result (convertible_lpf_of files file.now bytes.now model) }
    ensures others { IfOk result (λ x. SameBut model x.0) }
    ensures form { IfOk result (λ x. HasFlow x.0) }
    ensures layers { IfOk result (λ x. AreLayersOf x.0 x.1) }
{
    let stores = is_transient(model.periods.as_slice());
    match contents_of(alloc, file, bytes, folder, &model.grid, stores) {
        Ok((contents, layers)) => {
            folder.some_agree();
            let properties = contents.properties;
            let flow = FlowModel {
                coefficient: contents.coefficient,
                layvka: contents.layvka,
                hk: properties.hk,
                hani: properties.hani,
                vka: properties.vka,
                ss: properties.ss,
                vkcb: properties.vkcb,
                ..model
            };
            Ok((flow, layers))
        }
        Err(fault) => {
            drop(model);
            Err(fault)
        }
    }
}
