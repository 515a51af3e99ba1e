// The files of a text as a folder in memory.
ghost use Rattle.std.specs.Prelude.{◌≡◌, [], map, IfOk};
ghost use Rattle.outside.specs.{with_limit};
ghost use Rattle.record_lines.specs.{Has};
ghost use Rattle.model_types.specs.{most_bytes, IsModel};
ghost use Rattle.model_reader.specs.{reads};
ghost use Rattle.model_text.specs.{deck_name};
ghost use Rattle.zone_pairs.specs.{AreZones};
ghost use Rattle.stated_text.specs.{file_of, has_zones, zones_in};

use crate::text_file::TextFile;
use model_reader::read_named_model;
use model_types::{FlowModel, Limits, Listed};
use outside::{InputFault, MemFolder};
use std::alloc::{AllocError, Global};
use zone_file::{read_zones, zone_numbers};

/// The folder of these files.
#[tactic(auto, using(crate::proofs::FolderTexts::folder_steps))]
pub(crate) fn folder_of(
    alloc: Global,
    limits: Limits,
    files: &[TextFile],
) -> Result<MemFolder, AllocError>
    ensures { IfOk result (λ folder. folder ≡ record { files = map file_of files.now; limit = most_bytes limits; script = []; calls = 0; faults = 0 }) }
{
    let mut folder = MemFolder::new(alloc, limits.bytes());
    // the last one first, since the folder has the latest one first
    for i in 0..files.len() {
        let file = &files[files.len() - 1 - i];
        folder.add(file.name(), file.bytes())?;
    }
    Ok(folder)
}

/// The model that its files are read as.
pub(crate) fn read_deck(
    alloc: Global,
    limits: Limits,
    folder: &mut MemFolder,
) -> Result<FlowModel, InputFault>
    ensures same { with_limit folder.new.limit folder.new.files ≡ with_limit folder.old.limit folder.old.files }
    ensures reads { Has (λ m. m) result (reads limits (with_limit folder.old.limit folder.old.files) deck_name) }
    ensures model { IfOk result IsModel }
{
    read_named_model(alloc, limits, "p.nam", folder)
}

/// Whether one of the files is that of zones.
pub(crate) fn has_zones(files: &[TextFile]) -> bool
    ensures { result ≡ has_zones files.now }
{
    files.iter().any(|file| file.name() == "p.zon")
}

/// The zones of the model's cells that its file of zones is read as, if there is one.
pub(crate) fn read_zones_if(
    alloc: Global,
    model: &FlowModel,
    present: bool,
    folder: &mut MemFolder,
) -> Result<Option<Listed<u32>>, InputFault>
    requires model { IsModel model.now }
    ensures reads { Has (λ z. z) result (zones_in (with_limit folder.old.limit folder.old.files) present model.now) }
    ensures fit { IfOk result (AreZones model.now) }
{
    if !present {
        return Ok(None);
    }
    let zones = read_zones(alloc, model, "p.zon", folder)?;
    let numbers = zone_numbers(alloc, &zones)?;
    Ok(Some(Listed::new(numbers)))
}
