// Decks of the folder, one or two, which have to be alike.
ghost use Rattle.std.specs.Prelude.{◌≡◌, ◌<◌, IfErr, IfOk, IfSome, option_map};
ghost use Rattle.outside.specs.{folder_name, FileSet, IsReading, ReadsOn};
ghost use Rattle.model_types.specs.{cell_count, place, HasSize, IsModel};
ghost use Rattle.deck_problems.specs.{AreDecks};
ghost use Rattle.command_line.specs.{text_if};
ghost use Rattle.engine.specs.{AreDecksAs, AreDecksOf, IsNoSecond, IsRefusedBy, read_by_name, second_by, second_in};

use crate::reading::{bad_name, read_named};
use deck_problems::Decks;
use deck_span::{Difference, first_difference};
use model_reader::{read_model, read_name_file};
use model_types::{CellId, FlowModel, Grid, Limits, place_of};
use name_file::Names;
use outside::{Code, Folder, InputFault, Name, Refusal, is_good_name};
use std::alloc::Global;

/// A second deck: its name file, the files of its packages, and its model.
#[derive(Drop)]
pub(crate) struct Second<'a> {
    name: &'a str,
    files: Names,
    model: FlowModel,
}

// The second deck that a name file of the folder describes. The name is tested before any file.
fn read_second<'a, F: Folder>(
    alloc: Global,
    limits: Limits,
    folder: &mut F,
    name: &'a str,
) -> Result<Second<'a>, InputFault>
    requires may { F.may folder.old (folder_name name.now) }
    ensures folder { ReadsOn F.Folder folder.old folder.new result }
    ensures reads { (files : FileSet) → F.agrees folder.new files → IsReading second_by (read_by_name name.entry.now (second_in limits files)) result }
    ensures model { IfOk result (λ b. IsModel b.model) }
{
    if !is_good_name(name.as_bytes()) {
        return Err(bad_name(alloc));
    }
    let files = read_name_file(alloc, folder, name)?;
    match read_model(alloc, limits, &files, folder) {
        Ok(model) => Ok(Second { name, files, model }),
        Err(fault) => {
            // one call, so that the proof has no part for each of their fields
            drop(files);
            Err(fault)
        }
    }
}

// The layer, row and column of a cell, where there is one.
fn place_if(grid: &Grid, cell: Option<CellId>) -> Option<[u32; 3]>
    requires size { HasSize grid.now }
    requires cell { IfSome cell (λ c. c.0 < cell_count grid.now) }
    ensures { result ≡ option_map (λ c. place grid.now c.0) cell }
{
    match cell {
        Some(cell) => Some(place_of(grid, cell)),
        None => None,
    }
}

// The refusal of a second deck at its first difference from the first one.
fn unlike(alloc: Global, second: &Second, difference: Difference) -> InputFault
    requires size { HasSize second.now.model.grid }
    requires cell { IfSome difference.cell (λ c. c.0 < cell_count second.now.model.grid) }
    ensures { IsRefusedBy ((second_by second.now).unlike difference) result }
{
    let file = match second.files.file_of(difference.package) {
        Some(file) => file,
        None => second.name,
    };
    match Name::new(alloc, file) {
        Ok(file) => InputFault::Refused(Refusal {
            code: Code::NotAlike,
            file,
            line: 0,
            at: place_if(&second.model.grid, difference.cell),
        }),
        Err(_) => InputFault::Memory,
    }
}

// The decks of two models, or the refusal of the second one at its first difference from the first one.
fn decks_of<'a>(alloc: Global, first: FlowModel, second: Second<'a>) -> Result<Decks, InputFault>
    requires first { IsModel first }
    requires second { IsModel second.model }
    ensures alike { IfOk result (AreDecksOf first second.entry.model) }
    ensures unlike { IfErr result (IsNoSecond first (second_by second.entry)) }
{
    match first_difference(&first, &second.model) {
        None => Ok(Decks {
            first,
            second: Some(second.model),
        }),
        Some(difference) => {
            let fault = unlike(alloc, &second, difference);
            // by calls, so that the proof has no part for each of their fields
            drop(first);
            drop(second);
            Err(fault)
        }
    }
}

/// The deck of a name file of the folder, or the decks of two: the first is read, then the second, and then they are compared.
pub(crate) fn read_decks<F: Folder>(
    alloc: Global,
    limits: Limits,
    folder: &mut F,
    name: &str,
    to: Option<&str>,
) -> Result<Decks, InputFault>
    requires name { F.may folder.old (folder_name name.now) }
    requires to { IfSome (text_if to) (λ last. F.may folder.old (folder_name last)) }
    ensures folder { ReadsOn F.Folder folder.old folder.new result }
    ensures reads { (files : FileSet) → F.agrees folder.new files → AreDecksAs limits name.now (text_if to.entry) files result }
    ensures decks { IfOk result AreDecks }
{
    let first = read_named(alloc, limits, folder, name)?;
    let Some(to) = to else {
        return Ok(Decks {
            first,
            second: None,
        });
    };
    match read_second(alloc, limits, folder, to) {
        Ok(second) => decks_of(alloc, first, second),
        Err(fault) => {
            // one call, so that the proof has no part for each of its fields
            drop(first);
            Err(fault)
        }
    }
}
