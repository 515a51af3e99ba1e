// A model with convertible layers in reading order.
ghost use Rattle.std.specs.Prelude.{◌≡◌, All, IfOk, length, true};
ghost use Rattle.outside.specs.{FileSet, IsGoodName, ReadsOn, folder_name};
ghost use Rattle.record_lines.specs.{Has};
ghost use Rattle.decimal_input.specs.{IsDec};
ghost use Rattle.name_file.specs.{NamesMay};
ghost use Rattle.model_types.specs.{IsGrid, IsModel};
ghost use Rattle.water_table.specs.{with_yield};
ghost use Rattle.convertible_reader.specs.{convertible_lpf_in, convertible_model_of, convertible_reads};

use crate::lpf::read_convertible_lpf;
use crate::yields::yields_tested;
use model_reader::{
    bas_in, check_model, dis_in, file_needed, open_file, read_name_file, with_stresses,
};
use model_types::{FlowModel, Limits};
use name_file::{Names, Package};
use number_limits::Check;
use outside::{Folder, InputFault};
use std::alloc::Global;
use water_table::ConvertibleLayers;

/// The model with LPF, and its convertible layers. Then the properties of each active cell are checked, and then SY of each.
#[tactic(auto, unfolding(crate::specs::Model::convertible_lpf_in))]
fn convertible_lpf_in<F: Folder>(
    alloc: Global,
    folder: &mut F,
    name: &str,
    model: FlowModel,
) -> Result<(FlowModel, ConvertibleLayers), InputFault>
    requires name { IsGoodName name.now }
    requires may { F.may folder.old (folder_name name.now) }
    requires grid { IsGrid model.grid }
    requires strt { All IsDec model.strt }
    ensures folder { ReadsOn F.Folder folder.old folder.new result }
    ensures model { (files : FileSet) → F.agrees folder.new files → Has (λ x. x) result (convertible_lpf_in files name.now model) }
    ensures grid { IfOk result (λ x. IsGrid x.0.grid) }
{
    let (bytes, basic) = open_file(alloc, folder, name, model)?;
    let (flow, layers) = read_convertible_lpf(alloc, name, &bytes, folder, basic)?;
    let good = check_model(alloc, flow, name, Check::Properties)?;
    yields_tested(alloc, &good, &layers, name)?;
    Ok((good, layers))
}

/// The model of these packages, and its convertible layers: DIS, BAS6 with the thickness and the starting head of each active
/// cell, LPF with the properties of each active cell, and then WEL, RIV, DRN, GHB, RCH, CHD and EVT where they are named.
///
/// # Errors
/// The first refusal in this order, with its file, and with its line or, of a check, line 0 and the cell. A read fault
/// comes only from the folder.
#[tactic(auto, unfolding(crate::specs::Model::convertible_model_of))]
pub fn read_convertible_model<F: Folder>(
    alloc: Global,
    limits: Limits,
    names: &Names,
    folder: &mut F,
) -> Result<(FlowModel, ConvertibleLayers), InputFault>
    requires names { NamesMay (F.may folder.old) names.now }
    ensures folder { ReadsOn F.Folder folder.old folder.new result }
    ensures model { (files : FileSet) → F.agrees folder.new files → Has (λ x. x) result (convertible_model_of limits files names.now) }
    ensures form { IfOk result (λ x. IsModel x.0) }
    ensures layers { IfOk result (λ x. length x.1.laytyp ≡ x.0.grid.layers) }
    ensures yields { IfOk result (λ x. IsModel (with_yield x.0 x.1)) }
{
    let dis = file_needed(names, Package::Dis);
    let bas = file_needed(names, Package::Bas);
    let lpf = file_needed(names, Package::Lpf);
    let begun = dis_in(alloc, limits, folder, dis)?;
    let basic = bas_in(alloc, folder, dis, bas, begun)?;
    let (flow, layers) = convertible_lpf_in(alloc, folder, lpf, basic)?;
    let model = with_stresses(alloc, limits, names, folder, flow)?;
    folder.some_agree();
    Ok((model, layers))
}

/// The model that a name file of the folder describes, and its convertible layers.
///
/// # Errors
/// The first refusal, of the name file and then of the packages in reading order. A read fault comes only from the
/// folder.
#[tactic(auto, unfolding(crate::specs::Model::convertible_reads))]
pub fn read_named_convertible_model<F: Folder>(
    alloc: Global,
    limits: Limits,
    name: &str,
    folder: &mut F,
) -> Result<(FlowModel, ConvertibleLayers), InputFault>
    requires name { IsGoodName name.now }
    requires may { F.may folder.old (folder_name name.now) }
    ensures folder { ReadsOn F.Folder folder.old folder.new result }
    ensures model { (files : FileSet) → F.agrees folder.new files → Has (λ x. x) result (convertible_reads limits files name.now) }
    ensures form { IfOk result (λ x. IsModel x.0) }
    ensures layers { IfOk result (λ x. length x.1.laytyp ≡ x.0.grid.layers) }
    ensures yields { IfOk result (λ x. IsModel (with_yield x.0 x.1)) }
{
    let names = read_name_file(alloc, folder, name)?;
    read_convertible_model(alloc, limits, &names, folder)
}
