// What a run lists: decks of the folder, and the zones of their cells.
ghost use Rattle.std.specs.Prelude.{IfOk};
ghost use Rattle.outside.specs.{FileSet, ReadsOn};
ghost use Rattle.command_line.specs.{asked_of, text_if};
ghost use Rattle.listing_run.specs.{IsTask};
ghost use Rattle.engine.specs.{IsAsked, IsTaskRead, MayRead};

use crate::reading::read_zones_of;
use crate::two_decks::read_decks;
use command_line::RunOrder;
use listing_run::Task;
use outside::{Folder, InputFault};
use std::alloc::Global;

/// What a run lists: a deck of the folder, or two, which are read first, and the zones of their cells if the words name a zone
/// file.
pub(crate) fn read_task<'a, F: Folder>(
    alloc: Global,
    folder: &mut F,
    asked: RunOrder<'a>,
) -> Result<Task, InputFault>
    requires may { MayRead (F.may folder.old) (asked_of asked).name (text_if asked.to) (asked_of asked).zones }
    ensures folder { ReadsOn F.Folder folder.old folder.new result }
    ensures reads { (files : FileSet) → F.agrees folder.new files → IsTaskRead (asked_of asked.entry) (text_if asked.entry.to) files result }
    ensures task { IfOk result IsTask }
    ensures asked { IfOk result (IsAsked (asked_of asked.entry)) }
{
    let decks = read_decks(alloc, asked.limits, folder, asked.name, asked.to)?;
    match read_zones_of(alloc, &decks.first, asked.zones, folder) {
        Ok(zones) => Ok(Task {
            limits: asked.limits,
            decks,
            digits: asked.digits,
            zones,
            rounds: asked.rounds,
            quick: asked.quick,
        }),
        Err(fault) => {
            // one call, so that the proof has no part for each of their fields
            drop(decks);
            Err(fault)
        }
    }
}
