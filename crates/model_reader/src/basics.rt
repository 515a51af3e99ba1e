// DIS, BAS6 and LPF, each with the checks of cells that follow it.
ghost use Rattle.std.specs.Prelude.{◌≡◌, All, IfOk, List};
ghost use Rattle.outside.specs.{FileSet, ReadsOn, IsGoodName, folder_name, TextMay, file_at};
ghost use Rattle.record_lines.specs.{Has, HasText};
ghost use Rattle.decimal_input.specs.{IsDec};
ghost use Rattle.model_types.specs.{IsGrid};
ghost use Rattle.number_limits.specs.{check_result};
ghost use Rattle.dis_package.specs.{IsBegun};
ghost use Rattle.model_reader.specs.{dis_in, basics_tested, bas_in, lpf_in};

use bas_package::read_bas;
use dis_package::read_dis;
use lpf_package::read_lpf;
use model_types::{FlowModel, Limits};
use number_limits::{Check, check_cells};
use outside::{Folder, InputFault, TextFault, read_input};
use std::alloc::Global;

/// The model that DIS begins.
#[tactic(auto, unfolding(crate::specs::Model::dis_in))]
pub fn dis_in<F: Folder>(
    alloc: Global,
    limits: Limits,
    folder: &mut F,
    name: &str,
) -> Result<FlowModel, InputFault>
    requires name { IsGoodName name.now }
    requires may { F.may folder.old (folder_name name.now) }
    ensures folder { ReadsOn F.Folder folder.old folder.new result }
    ensures model { (files : FileSet) → F.agrees folder.new files → Has (λ m. m) result (dis_in limits files name.now) }
    ensures form { IfOk result IsBegun }
{
    let bytes = read_input(alloc, folder, name)?;
    read_dis(alloc, limits, name, &bytes, folder)
}

/// The model, if its cells pass a check.
pub fn check_model(
    alloc: Global,
    model: FlowModel,
    file: &str,
    check: Check,
) -> Result<FlowModel, TextFault>
    requires grid { IsGrid model.grid }
    requires strt { All IsDec model.strt }
    ensures check { HasText (λ _. tt) result (check_result model file.now check) }
    ensures same { IfOk result (λ m. m ≡ model) }
{
    match check_cells(alloc, &model, file, check) {
        Ok(()) => Ok(model),
        Err(fault) => {
            drop(model);
            Err(fault)
        }
    }
}

/// Checks the thickness of each active cell, which is refused with the file of DIS, and then the starting head
/// of each.
#[tactic(auto, unfolding(crate::specs::Model::basics_tested))]
fn basics_tested(
    alloc: Global,
    model: FlowModel,
    dis: &str,
    bas: &str,
) -> Result<FlowModel, TextFault>
    requires grid { IsGrid model.grid }
    requires strt { All IsDec model.strt }
    ensures tests { HasText (λ _. tt) result (basics_tested dis.now bas.now model) }
    ensures same { IfOk result (λ m. m ≡ model) }
{
    let thick = check_model(alloc, model, dis, Check::Thickness)?;
    check_model(alloc, thick, bas, Check::StartHead)
}

/// The model with BAS6. Then the thickness of each active cell is checked, and then the starting head of each.
#[tactic(auto, unfolding(crate::specs::Model::bas_in))]
pub fn bas_in<F: Folder>(
    alloc: Global,
    folder: &mut F,
    dis: &str,
    name: &str,
    model: FlowModel,
) -> Result<FlowModel, InputFault>
    requires name { IsGoodName name.now }
    requires may { F.may folder.old (folder_name name.now) }
    requires grid { IsGrid model.grid }
    ensures folder { ReadsOn F.Folder folder.old folder.new result }
    ensures model { (files : FileSet) → F.agrees folder.new files → Has (λ m. m) result (bas_in files dis.now name.now model) }
    ensures grid { IfOk result (λ m. IsGrid m.grid) }
    ensures strt { IfOk result (λ m. All IsDec m.strt) }
{
    let (bytes, begun) = open_file(alloc, folder, name, model)?;
    let basic = read_bas(alloc, name, &bytes, folder, begun)?;
    let tested = basics_tested(alloc, basic, dis, name)?;
    Ok(tested)
}

/// The model with LPF. Then the properties of each active cell are checked.
#[tactic(auto, unfolding(crate::specs::Model::lpf_in))]
pub fn lpf_in<F: Folder>(
    alloc: Global,
    folder: &mut F,
    name: &str,
    model: FlowModel,
) -> Result<FlowModel, InputFault>
    requires name { IsGoodName name.now }
    requires may { F.may folder.old (folder_name name.now) }
    requires grid { IsGrid model.grid }
    requires strt { All IsDec model.strt }
    ensures folder { ReadsOn F.Folder folder.old folder.new result }
    ensures model { (files : FileSet) → F.agrees folder.new files → Has (λ m. m) result (lpf_in files name.now model) }
    ensures grid { IfOk result (λ m. IsGrid m.grid) }
{
    let (bytes, basic) = open_file(alloc, folder, name, model)?;
    let flow = read_lpf(alloc, name, &bytes, folder, basic)?;
    let good = check_model(alloc, flow, name, Check::Properties)?;
    Ok(good)
}

// A file, read with the model that its contents are added to.

/// The bytes of a file of the folder, and the model unchanged.
pub fn open_file<F: Folder>(
    alloc: Global,
    folder: &mut F,
    name: &str,
    model: FlowModel,
) -> Result<(Vec<u8>, FlowModel), InputFault>
    requires name { IsGoodName name.now }
    requires may { F.may folder.old (folder_name name.now) }
    ensures folder { ReadsOn F.Folder folder.old folder.new result }
    ensures words { IfOk result (λ x. TextMay (F.may folder.new) x.0.items) }
    ensures bytes { (files : FileSet) → F.agrees folder.new files → Has (λ x. x.0.items) result (file_at files name.now) }
    ensures same { IfOk result (λ x. x.1 ≡ model) }
{
    match read_input(alloc, folder, name) {
        Ok(bytes) => Ok((bytes, model)),
        Err(fault) => {
            drop(model);
            Err(fault)
        }
    }
}
