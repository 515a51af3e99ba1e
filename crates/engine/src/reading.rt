// The model of a name, and the zones of its cells.
ghost use Rattle.std.specs.Prelude.{IfOk, IfSome, codes, option_map};
ghost use Rattle.outside.specs.declared.codes.Code.TheVariants.{BadName};
ghost use Rattle.outside.specs.{file_refusal, folder_name, file_at, FileSet, IsReading, ReadsOn, TextMay};
ghost use Rattle.model_types.specs.{IsModel};
ghost use Rattle.zone_pairs.specs.{AreZones};
ghost use Rattle.model_reader.specs.{reads};
ghost use Rattle.water_table.specs.{with_yield};
ghost use Rattle.convertible_reader.specs.{convertible_reads};
ghost use Rattle.engine.specs.{IsRefusedBy, read_by_name, zones_read};

use convertible_reader::read_named_convertible_model;
use model_reader::read_named_model;
use model_types::{FlowModel, Limits, Listed};
use outside::{Code, Folder, InputFault, file_refusal, is_good_name, read_input};
use std::alloc::Global;
use water_table::ConvertibleLayers;
use zone_file::{read_zones, zone_numbers};

/// The refusal of a bad name.
pub(crate) fn bad_name(alloc: Global) -> InputFault
    ensures { IsRefusedBy (file_refusal BadName (codes "-")) result }
{
    match file_refusal(alloc, Code::BadName, "-") {
        Ok(refusal) => InputFault::Refused(refusal),
        Err(_) => InputFault::Memory,
    }
}

/// The bytes of a named file of the folder. The name is tested before the file is read.
pub(crate) fn read_file<F: Folder>(
    alloc: Global,
    folder: &mut F,
    name: &str,
) -> Result<Vec<u8>, InputFault>
    requires { F.may folder.old (folder_name name.now) }
    ensures folder { ReadsOn F.Folder folder.old folder.new result }
    ensures words { IfOk result (λ v. TextMay (F.may folder.new) v.items) }
    ensures reads { (files : FileSet) → F.agrees folder.new files → IsReading (λ v. v.items) (read_by_name name.now (file_at files)) result }
{
    if !is_good_name(name.as_bytes()) {
        return Err(bad_name(alloc));
    }
    read_input(alloc, folder, name)
}

/// The model that a name file of the folder describes, by these limits. The name is tested before any file.
pub(crate) fn read_named<F: Folder>(
    alloc: Global,
    limits: Limits,
    folder: &mut F,
    name: &str,
) -> Result<FlowModel, InputFault>
    requires may { F.may folder.old (folder_name name.now) }
    ensures folder { ReadsOn F.Folder folder.old folder.new result }
    ensures reads { (files : FileSet) → F.agrees folder.new files → IsReading (λ m. m) (read_by_name name.now (reads limits files)) result }
    ensures model { IfOk result IsModel }
{
    if !is_good_name(name.as_bytes()) {
        return Err(bad_name(alloc));
    }
    read_named_model(alloc, limits, name, folder)
}

/// The model with convertible layers that a name file of the folder describes, by these limits. The name is tested before any file.
pub(crate) fn read_named_convertible<F: Folder>(
    alloc: Global,
    limits: Limits,
    folder: &mut F,
    name: &str,
) -> Result<(FlowModel, ConvertibleLayers), InputFault>
    requires may { F.may folder.old (folder_name name.now) }
    ensures folder { ReadsOn F.Folder folder.old folder.new result }
    ensures reads { (files : FileSet) → F.agrees folder.new files →
        IsReading (λ x. x) (read_by_name name.now (convertible_reads limits files)) result }
    ensures model { IfOk result (λ x. IsModel x.0) }
    ensures yields { IfOk result (λ x. IsModel (with_yield x.0 x.1)) }
{
    if !is_good_name(name.as_bytes()) {
        return Err(bad_name(alloc));
    }
    read_named_convertible_model(alloc, limits, name, folder)
}

/// The zones of a model's cells, from the named zone file, if there is one.
pub(crate) fn read_zones_of<F: Folder>(
    alloc: Global,
    model: &FlowModel,
    zones: Option<&str>,
    folder: &mut F,
) -> Result<Option<Listed<u32>>, InputFault>
    requires model { IsModel model.now }
    requires may { IfSome (option_map (λ name. name.now) zones) (λ name. F.may folder.old (folder_name name)) }
    ensures folder { ReadsOn F.Folder folder.old folder.new result }
    ensures zones { (files : FileSet) → F.agrees folder.new files →
        IsReading (λ z. z) (zones_read files (option_map (λ name. name.now) zones.entry) model.now) result }
    ensures fit { IfOk result (AreZones model.now) }
{
    let Some(name) = zones else {
        return Ok(None);
    };
    let read = read_zones(alloc, model, name, folder)?;
    let numbers = zone_numbers(alloc, &read)?;
    Ok(Some(Listed::new(numbers)))
}
