// The deck of a model of the folder, and the text of decks before their listing.
ghost use Rattle.std.specs.Prelude.{◌≡◌, ◌++◌, IfOk, IfSome, option_map};
ghost use Rattle.outside.specs.{folder_name, FileSet};
ghost use Rattle.model_types.specs.{HasSize};
ghost use Rattle.run_puts.specs.{IsRun, NeverCut, PutsMore};
ghost use Rattle.command_line.specs.{Write};
ghost use Rattle.deck_problems.specs.{AreDecks};
ghost use Rattle.listing_run.specs.{IsTask};
ghost use Rattle.model_text.specs.{deck_text};
ghost use Rattle.engine.specs.{IsSaid, IsFirstIf, decks_text, second_text, ServesAlone, folder_use};

use crate::ending::end_reading;
use crate::two_decks::read_decks;
use deck_problems::Decks;
use listing_run::{Task, zone_slice};
use model_types::{FlowModel, Limits};
use model_writer::{push_deck, write_deck};
use outside::{Folder, Sink};
use run_puts::{Status, put_line, put_memory, put_piece};
use std::alloc::{AllocError, Global};

/// Puts the deck of a model as one piece.
pub(crate) fn put_deck<K: Sink>(alloc: Global, model: &FlowModel, out: &mut K) -> Status
    requires { HasSize model.now.grid }
    ensures { PutsMore K.leads out.old out.new (IsRun (IsSaid (deck_text model.now)) NeverCut result) }
{
    let text = write_deck(alloc, model);
    put_line(out, text, Status::Ok)
}

/// Reads a model of the folder, and puts its deck.
pub(crate) fn write<F: Folder, K: Sink>(
    alloc: Global,
    limits: Limits,
    name: &str,
    folder: &mut F,
    out: &mut K,
) -> Status
    requires name { F.may folder.old (folder_name name.now) }
    ensures since { (files : FileSet) → F.agrees folder.new files → F.agrees folder.old files }
    ensures serves { PutsMore K.leads out.old out.new (ServesAlone (Write limits name.now) (folder_use F.Folder folder.old folder.new) result) }
{
    match read_decks(alloc, limits, folder, name, None) {
        Ok(decks) => {
            let status = put_deck(alloc, &decks.first, out);
            // one call, so that the proof has no part for each of their fields
            drop(decks);
            status
        }
        Err(fault) => end_reading(alloc, fault, out),
    }
}

// Appends the text of a second deck with these zones of its cells, if there is one.
fn push_second(
    text: &mut Vec<u8>,
    second: Option<&FlowModel>,
    zones: Option<&[u32]>,
) -> Result<(), AllocError>
    requires { IfSome (option_map (λ m. m.now) second) (λ m. HasSize m.grid) }
    ensures { IfOk result (λ _. text.new.items ≡ text.old.items
        ++ second_text (option_map (λ m. m.now) second.entry) (option_map (λ z. z.now) zones.entry)) }
{
    match second {
        None => Ok(()),
        Some(model) => push_deck(text, model, zones),
    }
}

// The text of decks, each with these zones of its cells.
fn text_of(alloc: Global, decks: &Decks, zones: Option<&[u32]>) -> Result<Vec<u8>, AllocError>
    requires { AreDecks decks.now }
    ensures { IfOk result (λ text. text.items ≡ decks_text decks.now (option_map (λ z. z.now) zones.entry)) }
{
    let mut text = Vec::new(alloc);
    push_deck(&mut text, &decks.first, zones)?;
    push_second(&mut text, decks.second.as_ref(), zones)?;
    Ok(text)
}

/// Puts the text of a task's decks as one piece, each with the zones of its cells, if that is asked for. If the result is a
/// status, it ends the run.
pub(crate) fn put_text_if<K: Sink>(
    alloc: Global,
    asked: bool,
    task: &Task,
    out: &mut K,
) -> Option<Status>
    requires { IsTask task.now }
    ensures { PutsMore K.leads out.old out.new (IsFirstIf asked (decks_text task.now.decks task.now.zones) result) }
{
    if !asked {
        return None;
    }
    match text_of(alloc, &task.decks, zone_slice(&task.zones)) {
        Ok(text) => put_piece(out, text.as_slice()),
        Err(_) => Some(put_memory(out)),
    }
}
