// The packages of stresses: lists of wells, rivers, drains, general heads and given heads, and arrays of recharge and of
// evapotranspiration.
//
// Each is read where the name file names it.
ghost use Rattle.std.specs.Prelude.{◌≡◌, IfOk};
ghost use Rattle.outside.specs.{TextMay, FileSet, ReadsOn};
ghost use Rattle.record_lines.specs.{Has};
ghost use Rattle.name_file.specs.{NamesMay};
ghost use Rattle.model_types.specs.{HasSize};
ghost use Rattle.model_reader.specs.{stress_in, stress_of, stresses, with_stresses};

use crate::basics::open_file;
use chd_package::read_chd;
use evt_package::read_evt;
use model_types::{FlowModel, Limits};
use name_file::{Names, Package};
use outside::{Folder, InputFault, TextFault};
use std::alloc::Global;
use stress_packages::{read_drn, read_ghb, read_rch, read_riv, read_wel};

/// The packages of stresses in reading order.
const STRESSES: [Package; 7] = [
    Package::Wel,
    Package::Riv,
    Package::Drn,
    Package::Ghb,
    Package::Rch,
    Package::Chd,
    Package::Evt,
];

/// The model with the stresses of a package's file; as it is, if the package has none.
fn stress_of<F: Folder>(
    alloc: Global,
    limits: Limits,
    asked: Package,
    file: &str,
    bytes: &[u8],
    folder: &mut F,
    model: FlowModel,
) -> Result<FlowModel, InputFault>
    requires size { HasSize model.grid }
    requires text { TextMay (F.may folder.old) bytes.now }
    ensures folder { ReadsOn F.Folder folder.old folder.new result }
    ensures model { (files : FileSet) → F.agrees folder.new files → Has (λ m. m) result (stress_of limits files asked file.now bytes.now model) }
    ensures grid { IfOk result (λ m. m.grid ≡ model.grid) }
{
    match asked {
        Package::Wel => Ok(read_wel(alloc, limits, file, bytes, model)?),
        Package::Riv => Ok(read_riv(alloc, limits, file, bytes, model)?),
        Package::Drn => Ok(read_drn(alloc, limits, file, bytes, model)?),
        Package::Ghb => Ok(read_ghb(alloc, limits, file, bytes, model)?),
        Package::Rch => read_rch(alloc, file, bytes, folder, model),
        Package::Chd => Ok(read_chd(alloc, limits, file, bytes, model)?),
        Package::Evt => read_evt(alloc, file, bytes, folder, model),
        Package::Dis | Package::Bas | Package::Lpf => Ok(model),
    }
}

/// The model with the stresses of a package.
#[tactic(auto, unfolding(crate::specs::Model::file_in))]
fn stress_in<F: Folder>(
    alloc: Global,
    limits: Limits,
    names: &Names,
    asked: Package,
    folder: &mut F,
    model: FlowModel,
) -> Result<FlowModel, InputFault>
    requires size { HasSize model.grid }
    requires names { NamesMay (F.may folder.old) names.now }
    ensures folder { ReadsOn F.Folder folder.old folder.new result }
    ensures model { (files : FileSet) → F.agrees folder.new files → Has (λ m. m) result (stress_in limits files names.now asked model) }
    ensures grid { IfOk result (λ m. m.grid ≡ model.grid) }
{
    match names.file_of(asked) {
        None => Ok(model),
        Some(name) => {
            let (bytes, model) = open_file(alloc, folder, name, model)?;
            stress_of(alloc, limits, asked, name, &bytes, folder, model)
        }
    }
}

/// The model with its stresses, package by package in reading order.
pub fn with_stresses<F: Folder>(
    alloc: Global,
    limits: Limits,
    names: &Names,
    folder: &mut F,
    model: FlowModel,
) -> Result<FlowModel, InputFault>
    requires size { HasSize model.grid }
    requires names { NamesMay (F.may folder.old) names.now }
    ensures folder { ReadsOn F.Folder folder.old folder.new result }
    ensures model { (files : FileSet) → F.agrees folder.new files → Has (λ m. m) result (with_stresses limits files names.now stresses model) }
{
    let mut model = model;
    for asked in STRESSES {
        let next = stress_in(alloc, limits, names, asked, folder, model)?;
        model = next;
    }
    Ok(model)
}
