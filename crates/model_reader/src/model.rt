// A model in reading order.
ghost use Rattle.std.specs.Prelude.{◌≡◌, IfOk, List, Contains, IsTrue, unwrap_or, []};
ghost use Rattle.outside.specs.{FileSet, ReadsOn, IsGoodName, folder_name};
ghost use Rattle.record_lines.specs.{Has};
ghost use Rattle.name_file.specs.{NamesMay, file_of, is_needed};
ghost use Rattle.model_types.specs.{IsModel};
ghost use Rattle.model_reader.specs.{model_of, reads, names_in, needed_file};

use crate::basics::{bas_in, dis_in, lpf_in};
use crate::stresses::with_stresses;
use model_types::{FlowModel, Limits};
use name_file::{Names, Package, read_names};
use outside::{Folder, InputFault, read_input};
use std::alloc::Global;

/// The model of these packages: DIS, BAS6 with the thickness and the starting head of each active cell, LPF with
/// the properties of each active cell, and then WEL, RIV, DRN, GHB, RCH, CHD and EVT where they are named.
///
/// # Errors
/// The first refusal in this order, with its file, and with its line or, of a check, line 0 and the cell. A read
/// fault comes only from the folder.
#[tactic(auto, unfolding(crate::specs::Model::model_of))]
pub fn read_model<F: Folder>(
    alloc: Global,
    limits: Limits,
    names: &Names,
    folder: &mut F,
) -> Result<FlowModel, InputFault>
    requires names { NamesMay (F.may folder.old) names.now }
    ensures folder { ReadsOn F.Folder folder.old folder.new result }
    ensures model { (files : FileSet) → F.agrees folder.new files → Has (λ m. m) result (model_of limits files names.now) }
    ensures form { IfOk result IsModel }
{
    let dis = file_needed(names, Package::Dis);
    let bas = file_needed(names, Package::Bas);
    let lpf = file_needed(names, Package::Lpf);
    let begun = dis_in(alloc, limits, folder, dis)?;
    let basic = bas_in(alloc, folder, dis, bas, begun)?;
    let flow = lpf_in(alloc, folder, lpf, basic)?;
    let read = with_stresses(alloc, limits, names, folder, flow);
    folder.some_agree();
    read
}

/// The model that a name file of the folder describes.
///
/// # Errors
/// The first refusal, of the name file and then of the packages in reading order. A read fault comes only from the
/// folder.
#[tactic(auto, unfolding(crate::specs::Model::reads))]
pub fn read_named_model<F: Folder>(
    alloc: Global,
    limits: Limits,
    name: &str,
    folder: &mut F,
) -> Result<FlowModel, InputFault>
    requires name { IsGoodName name.now }
    requires may { F.may folder.old (folder_name name.now) }
    ensures folder { ReadsOn F.Folder folder.old folder.new result }
    ensures model { (files : FileSet) → F.agrees folder.new files → Has (λ m. m) result (reads limits files name.now) }
    ensures form { IfOk result IsModel }
{
    let names = read_name_file(alloc, folder, name)?;
    read_model(alloc, limits, &names, folder)
}

// The name file.

/// The packages of the model that a name file of the folder describes.
///
/// # Errors
/// As `read_names`. A name file that is missing or too long is refused with line 0. A read fault comes
/// only from the folder.
#[tactic(auto, unfolding(crate::specs::Model::names_in))]
pub fn read_name_file<F: Folder>(
    alloc: Global,
    folder: &mut F,
    name: &str,
) -> Result<Names, InputFault>
    requires name { IsGoodName name.now }
    requires may { F.may folder.old (folder_name name.now) }
    ensures folder { ReadsOn F.Folder folder.old folder.new result }
    ensures files { IfOk result (NamesMay (F.may folder.new)) }
    ensures names { (files : FileSet) → F.agrees folder.new files → Has (λ n. n) result (names_in files name.now) }
{
    let bytes = read_input(alloc, folder, name)?;
    Ok(read_names(alloc, name, &bytes)?)
}

/// The file of a package that every model has.
pub fn file_needed(names: &Names, asked: Package) -> &str
    requires asked { IsTrue (is_needed asked) }
    ensures file { result.now ≡ needed_file asked names.now }
    ensures pair { Contains names.now (asked, result.now) }
    ensures good { IsGoodName result.now }
{
    match names.file_of(asked) {
        Some(name) => name,
        None => unreachable!(),
    }
}
