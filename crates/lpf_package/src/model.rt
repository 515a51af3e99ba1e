// The model with its properties.
ghost use Rattle.std.specs.Prelude.{◌≡◌, IfOk, List};
ghost use Rattle.outside.specs.{TextMay, FileSet, ReadsOn};
ghost use Rattle.record_lines.specs.{Has};
ghost use Rattle.lpf_package.specs.{contents_of, is_transient, lpf_of, HasFlow, SameBut};

use crate::layer::Properties;
use crate::settings::{layers_of, option_line, settings_of};
use model_types::{FlowModel, Grid, Listed, Period};
use outside::{Folder, InputFault};
use record_lines::Lines;
use std::alloc::Global;

/// Whether a stress period is transient, and so the file has SS.
pub fn is_transient(periods: &[Period]) -> bool
    ensures { result ≡ is_transient periods.now }
{
    periods.iter().any(|p| !p.steady)
}

/// The contents of a file of the package: whether SS is a storage coefficient, LAYVKA by layer, and the layers' arrays.
#[derive(Drop)]
pub struct Contents {
    pub coefficient: bool,
    pub layvka: Listed<i64>,
    pub properties: Properties,
}

#[tactic(auto, unfolding(crate::specs::Flow::contents_of))]
fn contents_of<F: Folder>(
    alloc: Global,
    file: &str,
    bytes: &[u8],
    folder: &mut F,
    grid: &Grid,
    stores: bool,
) -> Result<Contents, InputFault>
    requires text { TextMay (F.may folder.old) bytes.now }
    ensures folder { ReadsOn F.Folder folder.old folder.new result }
    ensures contents { (files : FileSet) → F.agrees folder.new files → Has (λ c. c) result (contents_of files file.now bytes.now grid.now stores) }
{
    let mut lines = Lines::new(bytes);
    lines.skip_comments();
    let coefficient = option_line(alloc, &mut lines, file)?;
    let settings = settings_of(alloc, &mut lines, file, grid.layers)?;
    let (chani, layers) = (settings.chani.as_slice(), grid.layers);
    let properties = layers_of(alloc, &mut lines, file, folder, grid, chani, stores, layers)?;
    Ok(Contents {
        coefficient,
        layvka: settings.layvka,
        properties,
    })
}

/// The model with the properties of a file of the layer-property flow package. `file` is the file's name, for
/// refusals, and `folder` has the files that its arrays name. `ss` is empty where no period is transient, and
/// `vkcb` is 0 in layers without a bed.
///
/// # Errors
/// The first item that is wrong is refused on its line; a read fault comes only from the folder.
/// (TM 6-A16, LPF)
#[tactic(auto, unfolding(crate::specs::Flow::lpf_of))]
pub fn read_lpf<F: Folder>(
    alloc: Global,
    file: &str,
    bytes: &[u8],
    folder: &mut F,
    model: FlowModel,
) -> Result<FlowModel, InputFault>
    requires text { TextMay (F.may folder.old) bytes.now }
    ensures folder { ReadsOn F.Folder folder.old folder.new result }
    ensures model { (files : FileSet) → F.agrees folder.new files → Has (λ m. m) result (lpf_of files file.now bytes.now model) }
    ensures others { IfOk result (SameBut model) }
    ensures form { IfOk result HasFlow }
{
    let stores = is_transient(model.periods.as_slice());
    match contents_of(alloc, file, bytes, folder, &model.grid, stores) {
        Ok(contents) => {
            folder.some_agree();
            let properties = contents.properties;
            Ok(FlowModel {
                coefficient: contents.coefficient,
                layvka: contents.layvka,
                hk: properties.hk,
                hani: properties.hani,
                vka: properties.vka,
                ss: properties.ss,
                vkcb: properties.vkcb,
                ..model
            })
        }
        Err(fault) => {
            drop(model);
            Err(fault)
        }
    }
}
