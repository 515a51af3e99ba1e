// The decks of a text.
ghost use Rattle.std.specs.Prelude.{◌≡◌, IfOk, IfSome, option_map};
ghost use Rattle.record_lines.specs.{HasText};
ghost use Rattle.model_types.specs.{HasSize, IsModel};
ghost use Rattle.zone_pairs.specs.{AreZones};
ghost use Rattle.model_text.specs.{zoned_text};
ghost use Rattle.stated_text.specs.{StandsIn, after_due, last_of, or_bad, part_at, part_of, parts_in, zoned_model};

use crate::cutting::{begins_part, cut};
use crate::due::after_due;
use crate::folder::{folder_of, has_zones, read_deck, read_zones_if};
use crate::part::{Part, Parts};
use crate::places::fault_in_text;
use crate::rest::Rest;
use crate::text_file::TextFile;
use listing_run::zone_slice;
use model_types::{FlowModel, Limits, Listed};
use model_writer::push_deck;
use outside::{Code, TextFault, text_fault};
use std::alloc::Global;

// The model and the zones that the files of a part are read as.
fn read_zoned(
    alloc: Global,
    limits: Limits,
    text: &str,
    files: &[TextFile],
) -> Result<(FlowModel, Option<Listed<u32>>), TextFault>
    ensures reads { HasText (λ x. (x.0, x.1)) result (zoned_model limits text.now files.now) }
    ensures model { IfOk result (λ x. IsModel x.0) }
    ensures fit { IfOk result (λ x. AreZones x.0 x.1) }
{
    let mut folder = folder_of(alloc, limits, files)?;
    match read_deck(alloc, limits, &mut folder) {
        Ok(model) => match read_zones_if(alloc, &model, has_zones(files), &mut folder) {
            Ok(zones) => Ok((model, zones)),
            Err(fault) => {
                // one call, so that the proof has no part for each of its fields
                drop(model);
                Err(fault_in_text(alloc, text, files, fault))
            }
        },
        Err(fault) => Err(fault_in_text(alloc, text, files, fault)),
    }
}

// What follows the text of a model with these zones, and the number of its first line.
fn read_after<'a>(
    alloc: Global,
    text: &str,
    bytes: &'a [u8],
    line: u32,
    model: &FlowModel,
    zones: Option<&[u32]>,
) -> Result<(&'a [u8], u32), TextFault>
    requires { HasSize model.now.grid }
    ensures { HasText (λ x. (x.0.now, x.1)) result
        (or_bad text.now (after_due line bytes.entry.now (zoned_text model.now (option_map (λ z. z.now) zones.entry)))) }
{
    let mut due = Vec::new(alloc);
    push_deck(&mut due, model, zones)?;
    match after_due(bytes, due.as_slice(), line) {
        Ok(after) => Ok(after),
        Err(number) => Err(text_fault(alloc, Code::BadListing, text, number)),
    }
}

// The part of files that are read so, if its bytes are the text of the model with its zones, or with those of the first part.
fn part_of<'a>(
    alloc: Global,
    text: &str,
    line: u32,
    given: Option<&Option<Listed<u32>>>,
    bytes: &'a [u8],
    files: Vec<TextFile<'a>>,
    read: (FlowModel, Option<Listed<u32>>),
) -> Result<Part<'a>, TextFault>
    requires { IsModel read.0 }
    ensures reads { HasText (λ p. p) result (part_of text.now line (option_map (λ z. z.now) given.entry) bytes.entry.now files.entry.items read.0 read.1) }
    ensures model { IfOk result (λ p. p.model ≡ read.0) }
    ensures zones { IfOk result (λ p. p.zones ≡ read.1) }
{
    let (model, zones) = read;
    let due = match given {
        None => zone_slice(&zones),
        Some(first) => zone_slice(first),
    };
    match read_after(alloc, text, bytes, line, &model, due) {
        Ok((rest, line)) => Ok(Part {
            files: Listed::new(files),
            model,
            zones,
            rest: Rest::new(rest),
            line,
        }),
        Err(fault) => {
            // by calls, so that the proof has no part for each of their fields
            drop(files);
            drop(model);
            Err(fault)
        }
    }
}

// The part of a text from this line on.
fn read_part<'a>(
    alloc: Global,
    limits: Limits,
    text: &str,
    line: u32,
    given: Option<&Option<Listed<u32>>>,
    bytes: &'a [u8],
) -> Result<Part<'a>, TextFault>
    ensures reads { HasText (λ p. p) result (part_at limits text.now line (option_map (λ z. z.now) given.entry) bytes.entry.now) }
    ensures model { IfOk result (λ p. IsModel p.model) }
    ensures fit { IfOk result (λ p. AreZones p.model p.zones) }
{
    let files = cut(alloc, text, bytes, line)?;
    match read_zoned(alloc, limits, text, files.as_slice()) {
        Ok(read) => part_of(alloc, text, line, given, bytes, files, read),
        Err(fault) => {
            // one call, so that the proof has no part for each of its fields
            drop(files);
            Err(fault)
        }
    }
}

/// The decks at the beginning of a text: one, or two where a line FILE follows the first one. Each is read as the files of its
/// part, and its bytes are the text of the model that they are read as, with zones of its cells where it has a file of them;
/// the second deck has the same zones.
///
/// # Errors
/// BadListing of the text, at the first line that is another one than the line that is due: the first line, where it is no
/// line FILE; the line after the last, where a line END lacks; the line in which a part differs from the text of its model.
/// A refusal of a file is one of the text, at its line there; that of a file which the text hasn't is of that file.
pub fn read_parts<'a>(
    alloc: Global,
    limits: Limits,
    text: &str,
    bytes: &'a [u8],
) -> Result<Parts<'a>, TextFault>
    ensures reads { HasText (λ p. p) result (parts_in limits text.now bytes.entry.now) }
    ensures first { IfOk result (λ p. IsModel p.first.model) }
    ensures second { IfOk result (λ p. IfSome p.second (λ b. IsModel b.model)) }
    ensures fit { IfOk result (λ p. AreZones p.first.model p.first.zones) }
    ensures stands { IfOk result (λ p. StandsIn bytes.entry.now p.first.model (option_map (λ b. b.model) p.second) p.first.zones (last_of p).rest) }
{
    let first = read_part(alloc, limits, text, 1, None, bytes)?;
    let rest = first.rest.as_slice();
    if !begins_part(rest) {
        return Ok(Parts {
            first,
            second: None,
        });
    }
    match read_part(alloc, limits, text, first.line, Some(&first.zones), rest) {
        Ok(second) => Ok(Parts {
            first,
            second: Some(second),
        }),
        Err(fault) => {
            // one call, so that the proof has no part for each of its fields
            drop(first);
            Err(fault)
        }
    }
}
