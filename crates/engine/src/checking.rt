// The check of a listing of the folder.
ghost use Rattle.std.specs.Prelude.{◌≤◌, Ok, IfOk, IfSome, Some, option_map};
ghost use Rattle.outside.specs.{folder_name, FileSet, IsReading, ReadsOn};
ghost use Rattle.model_types.specs.{IsModel};
ghost use Rattle.zone_pairs.specs.{pairs_in, AreZones};
ghost use Rattle.listing_io.specs.{AreListed};
ghost use Rattle.run_puts.specs.{IsRun, NeverCut, PutsMore};
ghost use Rattle.command_line.specs.{Check, check_of, text_if};
ghost use Rattle.engine.specs.{IsCheck, case_of, MayRead, Answers, AreDecksAs, IsListed, ServesAlone, folder_use, listing_read, steps_read};
ghost use Rattle.deck_problems.specs.{AreDecks};

use crate::ending::end_reading;
use crate::reading::{read_file, read_zones_of};
use crate::two_decks::read_decks;
use crate::verdict::put_verdict;
use crate::zoned::ZonedListing;
use check_run::check_listing;
use command_line::CheckOrder;
use deck_problems::Decks;
use listing_io::{Listing, read_listing};
use listing_run::zone_slice;
use model_types::{FlowModel, Limits};
use outside::{Folder, InputFault, Sink};
use run_puts::{Status, put_memory};
use std::alloc::Global;

// The listing of a model, or of all models between two, with these zones that a check names.
fn read_steps<F: Folder>(
    alloc: Global,
    folder: &mut F,
    between: bool,
    model: &FlowModel,
    asked: CheckOrder,
    zones: Option<&[u32]>,
) -> Result<Listing, InputFault>
    requires model { IsModel model.now }
    requires zones { AreZones model.now (option_map (λ z. z.now) zones) }
    requires may { F.may folder.old (folder_name asked.listing.now) }
    ensures folder { ReadsOn F.Folder folder.old folder.new result }
    ensures reads { (files : FileSet) → F.agrees folder.new files →
        IsReading (λ l. l) (steps_read between files (check_of asked.entry) model.now (option_map (λ z. z.now) zones.entry)) result }
    ensures listed { IfOk result (AreListed model.now (pairs_in model.now (option_map (λ z. z.now) zones.entry))) }
{
    let bytes = read_file(alloc, folder, asked.listing)?;
    let listing = read_listing(
        alloc,
        between,
        model,
        asked.listing,
        bytes.as_slice(),
        asked.digits,
        zones,
    )?;
    Ok(listing)
}

/// The listing of a model that a check names, with the zones of its zone file, if there is one, which is read first.
pub(crate) fn read_listed<F: Folder>(
    alloc: Global,
    folder: &mut F,
    between: bool,
    model: &FlowModel,
    asked: CheckOrder,
) -> Result<ZonedListing, InputFault>
    requires model { IsModel model.now }
    requires zones { IfSome (check_of asked).zones (λ zones. F.may folder.old (folder_name zones)) }
    requires may { F.may folder.old (folder_name asked.listing.now) }
    ensures folder { ReadsOn F.Folder folder.old folder.new result }
    ensures reads { (files : FileSet) → F.agrees folder.new files →
        IsReading (λ l. l) (listing_read between files (check_of asked.entry) model.now) result }
    ensures listed { IfOk result (IsListed model.now) }
{
    let zones = read_zones_of(alloc, model, asked.zones, folder)?;
    let steps = read_steps(alloc, folder, between, model, asked, zone_slice(&zones))?;
    Ok(ZonedListing { zones, steps })
}

/// Checks a listing of decks, and puts the line of its verdict.
pub(crate) fn put_check<K: Sink>(
    alloc: Global,
    limits: Limits,
    decks: &Decks,
    listing: &ZonedListing,
    digits: u32,
    out: &mut K,
) -> Status
    requires decks { AreDecks decks.now }
    requires digits { digits ≤ 18 }
    requires listing { IsListed decks.now.first listing.now }
    ensures { PutsMore K.leads out.old out.new (IsRun (IsCheck limits decks.now digits listing.now) NeverCut result) }
{
    match check_listing(
        alloc,
        limits,
        decks,
        &listing.steps,
        digits,
        zone_slice(&listing.zones),
    ) {
        Ok(verdict) => put_verdict(alloc, &decks.first.grid, verdict, out),
        Err(_) => put_memory(out),
    }
}

// Reads the zones and a listing of decks, and puts the line of its verdict.
fn check_decks<'a, F: Folder, K: Sink>(
    alloc: Global,
    asked: CheckOrder<'a>,
    decks: &Decks,
    folder: &mut F,
    out: &mut K,
) -> Status
    requires decks { AreDecks decks.now }
    requires zones { IfSome (check_of asked).zones (λ zones. F.may folder.old (folder_name zones)) }
    requires may { F.may folder.old (folder_name asked.listing.now) }
    ensures since { (files : FileSet) → F.agrees folder.new files → F.agrees folder.old files }
    ensures answers { PutsMore K.leads out.old out.new (λ more. (files : FileSet) → F.agrees folder.new files →
        AreDecksAs (check_of asked.entry).limits (check_of asked.entry).name (text_if asked.entry.to) files (Ok decks.now) →
        Answers (case_of (Some (Check (check_of asked.entry) (text_if asked.entry.to))) files)
        (F.faults folder.old) (F.faults folder.new) result more) }
{
    match read_listed(alloc, folder, asked.to.is_some(), &decks.first, asked) {
        Ok(listing) => put_check(alloc, asked.limits, decks, &listing, asked.digits, out),
        Err(fault) => end_reading(alloc, fault, out),
    }
}

/// Reads a deck of the folder, or two, the zones of its cells, and a listing of it or of all models between the two, and puts
/// the line of its verdict.
pub(crate) fn check<'a, F: Folder, K: Sink>(
    alloc: Global,
    asked: CheckOrder<'a>,
    folder: &mut F,
    out: &mut K,
) -> Status
    requires may { MayRead (F.may folder.old) (check_of asked).name (text_if asked.to) (check_of asked).zones }
    requires listing { F.may folder.old (folder_name asked.listing.now) }
    ensures since { (files : FileSet) → F.agrees folder.new files → F.agrees folder.old files }
    ensures serves { PutsMore K.leads out.old out.new
        (ServesAlone (Check (check_of asked.entry) (text_if asked.entry.to)) (folder_use F.Folder folder.old folder.new) result) }
{
    match read_decks(alloc, asked.limits, folder, asked.name, asked.to) {
        Ok(decks) => {
            let status = check_decks(alloc, asked, &decks, folder, out);
            // one call, so that the proof has no part for each of their fields
            drop(decks);
            status
        }
        Err(fault) => end_reading(alloc, fault, out),
    }
}
