// The check of a text: its decks, the zones of their cells, and the listing after them.
ghost use Rattle.std.specs.Prelude.{ℕ, IfOk, IfSome, Some, option_map};
ghost use Rattle.outside.specs.{folder_name, input_fault, FileSet};
ghost use Rattle.model_types.specs.{IsModel};
ghost use Rattle.record_lines.specs.{HasText};
ghost use Rattle.zone_pairs.specs.{pairs_in, AreZones};
ghost use Rattle.listing_io.specs.{AreListed};
ghost use Rattle.stated_text.specs.{parts_in, steps_after};
ghost use Rattle.run_puts.specs.{PutsMore};
ghost use Rattle.command_line.specs.{CheckText, asked_text};
ghost use Rattle.engine.specs.{Answers, IsReadingEnd, ServesAlone, case_parts, case_read, case_rest, folder_use};
ghost use Rattle.deck_problems.specs.{AreDecks};

use crate::checking::put_check;
use crate::ending::end_reading;
use crate::reading::read_file;
use crate::zoned::ZonedListing;
use command_line::TextOrder;
use deck_problems::Decks;
use deck_span::first_difference;
use listing_io::Listing;
use listing_run::zone_slice;
use model_types::{FlowModel, Listed};
use outside::{Folder, InputFault, Sink, TextFault};
use run_puts::Status;
use stated_text::{Part, Parts, Rest, read_parts, read_steps, unlike};
use std::alloc::Global;

// The steps of the listing after decks whose first one has this model, from this line of the text on.
fn read_rest(
    alloc: Global,
    between: bool,
    model: &FlowModel,
    asked: TextOrder,
    line: u32,
    rest: &[u8],
    zones: Option<&[u32]>,
) -> Result<Listing, TextFault>
    requires model { IsModel model.now }
    requires zones { AreZones model.now (option_map (λ z. z.now) zones) }
    ensures reads { HasText (λ l. l) result (steps_after between model.now asked.entry.digits
        (pairs_in model.now (option_map (λ z. z.now) zones.entry)) asked.entry.text.now line rest.now) }
    ensures listed { IfOk result (AreListed model.now (pairs_in model.now (option_map (λ z. z.now) zones.entry))) }
{
    read_steps(
        alloc,
        between,
        model,
        asked.text,
        line,
        rest,
        asked.digits,
        zones,
    )
}

// Ends a check whose text has no decks or no listing.
fn end_text<K: Sink>(alloc: Global, fault: TextFault, out: &mut K) -> Status
    ensures { PutsMore K.leads out.old out.new (IsReadingEnd (input_fault fault) result) }
{
    end_reading(alloc, InputFault::from(fault), out)
}

// Checks the listing after decks, from this line of the text on, and puts the line of its verdict.
fn check_rest<K: Sink>(
    alloc: Global,
    asked: TextOrder,
    decks: &Decks,
    zones: Option<Listed<u32>>,
    line: u32,
    rest: &[u8],
    out: &mut K,
) -> Status
    requires decks { AreDecks decks.now }
    requires zones { AreZones decks.now.first zones }
    ensures { PutsMore K.leads out.old out.new (λ more. (n : ℕ) →
        Answers (case_rest (asked_text asked.entry) decks.now zones line rest.now) n n result more) }
{
    let between = decks.second.is_some();
    match read_rest(
        alloc,
        between,
        &decks.first,
        asked,
        line,
        rest,
        zone_slice(&zones),
    ) {
        Ok(steps) => {
            let listing = ZonedListing { zones, steps };
            put_check(alloc, asked.limits, decks, &listing, asked.digits, out)
        }
        Err(fault) => end_text(alloc, fault, out),
    }
}

// Checks the listing after decks, in what follows the last part.
fn check_last<K: Sink>(
    alloc: Global,
    asked: TextOrder,
    decks: Decks,
    zones: Option<Listed<u32>>,
    line: u32,
    rest: Rest,
    out: &mut K,
) -> Status
    requires decks { AreDecks decks }
    requires zones { AreZones decks.first zones }
    ensures { PutsMore K.leads out.old out.new (λ more. (n : ℕ) → Answers (case_rest (asked_text asked.entry) decks zones line rest.entry) n n result more) }
{
    let status = check_rest(alloc, asked, &decks, zones, line, rest.as_slice(), out);
    // one call, so that the proof has no part for each of their fields
    drop(decks);
    status
}

// Checks the listing after two decks, which must be alike.
fn check_two<K: Sink>(
    alloc: Global,
    asked: TextOrder,
    first: Part,
    second: Part,
    out: &mut K,
) -> Status
    requires first { IsModel first.model }
    requires second { IsModel second.model }
    requires zones { AreZones first.model first.zones }
    ensures { PutsMore K.leads out.old out.new (λ more. (n : ℕ) →
        Answers (case_parts (asked_text asked.entry) first.entry (Some second.entry)) n n result more) }
{
    match first_difference(&first.model, &second.model) {
        Some(difference) => {
            let fault = unlike(alloc, asked.text, &second, difference);
            // by calls, so that the proof has no part for each of their fields
            drop(first);
            drop(second);
            end_text(alloc, fault, out)
        }
        None => {
            let Part {
                files: first_files,
                model: first_model,
                zones,
                rest: _,
                line: _,
            } = first;
            let Part {
                files,
                model,
                zones: same_zones,
                rest,
                line,
            } = second;
            drop(first_files);
            drop(files);
            drop(same_zones);
            let decks = Decks {
                first: first_model,
                second: Some(model),
            };
            check_last(alloc, asked, decks, zones, line, rest, out)
        }
    }
}

// Checks the listing after the decks of a text.
fn check_parts<K: Sink>(alloc: Global, asked: TextOrder, parts: Parts, out: &mut K) -> Status
    requires first { IsModel parts.first.model }
    requires second { IfSome parts.second (λ b. IsModel b.model) }
    requires zones { AreZones parts.first.model parts.first.zones }
    ensures { PutsMore K.leads out.old out.new (λ more. (n : ℕ) →
        Answers (case_parts (asked_text asked.entry) parts.entry.first parts.entry.second) n n result more) }
{
    let Parts { first, second } = parts;
    match second {
        Some(second) => check_two(alloc, asked, first, second, out),
        None => {
            let Part {
                files,
                model,
                zones,
                rest,
                line,
            } = first;
            drop(files);
            let decks = Decks {
                first: model,
                second: None,
            };
            check_last(alloc, asked, decks, zones, line, rest, out)
        }
    }
}

// Checks the listing in the bytes of a text.
fn check_bytes<K: Sink>(alloc: Global, asked: TextOrder, bytes: &[u8], out: &mut K) -> Status
    ensures { PutsMore K.leads out.old out.new (λ more. (n : ℕ) →
        Answers (case_read (parts_in asked.entry.limits asked.entry.text.now bytes.now)
        (λ p. case_parts (asked_text asked.entry) p.first p.second)) n n result more) }
{
    match read_parts(alloc, asked.limits, asked.text, bytes) {
        Ok(parts) => check_parts(alloc, asked, parts, out),
        Err(fault) => end_text(alloc, fault, out),
    }
}

/// Reads a text of the folder, which has a deck or two, zones of their cells if there are some, and a listing; and puts the
/// line of its verdict.
pub(crate) fn check_text<'a, F: Folder, K: Sink>(
    alloc: Global,
    asked: TextOrder<'a>,
    folder: &mut F,
    out: &mut K,
) -> Status
    requires may { F.may folder.old (folder_name asked.text.now) }
    ensures since { (files : FileSet) → F.agrees folder.new files → F.agrees folder.old files }
    ensures serves { PutsMore K.leads out.old out.new (ServesAlone (CheckText (asked_text asked.entry)) (folder_use F.Folder folder.old folder.new) result) }
{
    match read_file(alloc, folder, asked.text) {
        Ok(bytes) => check_bytes(alloc, asked, bytes.as_slice(), out),
        Err(fault) => end_reading(alloc, fault, out),
    }
}
