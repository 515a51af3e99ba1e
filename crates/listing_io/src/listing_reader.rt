// The reading of a listing.
ghost use Rattle.std.specs.Prelude.{◌≡◌, ◌≤◌, ℕ, All, List, Result, length, option_map, IfOk, IfSome, OnOk};
ghost use Rattle.model_types.specs.{HasSize};
ghost use Rattle.record_lines.specs.{HasText, StopsText, for_each};
ghost use Rattle.zone_pairs.specs.{pairs_in, ArePairs, CanPair, zones_of};
ghost use Rattle.listing_io.specs.declared.listing.ListedStep.{ListedStep};
ghost use Rattle.listing_io.specs.{AreListed, Gives, Has, ReadsOrStops, Stops, convertible_first_line, convertible_listing_at, convertible_listing_in};
ghost use Rattle.listing_io.specs.{first_at, listing_at, listing_in, or_bad_listing, step_at, steps_to_end, text_at};

use crate::fault::Fault;
use crate::lines::AllLines;
use crate::listing::{ListedStep, Listing};
use crate::listing_writer::{push_convertible_first_line, push_first_line};
use crate::step_reader::read_step;
use model_types::{FlowModel, Listed, TimeStep, times};
use outside::{Code, TextFault, text_fault};
use std::alloc::Global;
use zone_pairs::ZonePairs;

#[tactic(auto, unfolding(crate::specs::Reading::first_at))]
fn read_first(
    text: &mut Vec<u8>,
    between: bool,
    model: &FlowModel,
    s: u32,
    lines: &mut AllLines,
) -> Result<(), Fault>
    ensures { ReadsOrStops result lines.new (first_at between model.now s lines.old) }
{
    let number = lines.number();
    let line = lines.take()?;
    text.clear();
    push_first_line(text, b"HEADS 2", between, model, s)?;
    if text.as_slice() == line || (!between && b"HEADS 1".as_slice() == line) {
        Ok(())
    } else {
        Err(Fault::BadLine(number))
    }
}

fn read_convertible_first(
    text: &mut Vec<u8>,
    model: &FlowModel,
    s: u32,
    lines: &mut AllLines,
) -> Result<(), Fault>
    ensures { ReadsOrStops result lines.new (text_at (convertible_first_line model.now s) lines.old) }
{
    text.clear();
    push_convertible_first_line(text, model, s)?;
    lines.expect(text.as_slice())
}

// The step of a time. `pairs` are those of the model, and move to the step's period.
fn read_next(
    alloc: Global,
    text: &mut Vec<u8>,
    model: &FlowModel,
    s: u32,
    pairs: &mut ZonePairs,
    at: TimeStep,
    lines: &mut AllLines,
) -> Result<ListedStep, Fault>
    requires size { HasSize model.now.grid }
    requires digits { s ≤ 18 }
    requires pairs { ArePairs model.now pairs.old }
    requires time { at.period ≤ length model.now.periods }
    ensures pairs { OnOk result (ArePairs model.now pairs.new) }
    ensures zones { zones_of pairs.new ≡ zones_of pairs.old }
    ensures step { Gives (λ x. x) result lines.new (step_at model.now s (pairs_in model.now (zones_of pairs.old)) at lines.old) }
{
    pairs.go_to(alloc, model, at.period)?;
    read_step(alloc, text, model, s, pairs.as_slice(), at, lines)
}

fn read_steps(
    alloc: Global,
    text: &mut Vec<u8>,
    model: &FlowModel,
    s: u32,
    pairs: &mut ZonePairs,
    times: &[TimeStep],
    lines: &mut AllLines,
) -> Result<Vec<ListedStep>, Fault>
    requires size { HasSize model.now.grid }
    requires digits { s ≤ 18 }
    requires pairs { ArePairs model.now pairs.old }
    requires times { All (λ at. at.period ≤ length model.now.periods) times.now }
    ensures { Gives (λ v. v.items) result lines.new (for_each (step_at model.now s (pairs_in model.now (zones_of pairs.old))) times.now lines.old) }
{
    let mut steps = Vec::new(alloc);
    for at in times {
        let step = read_next(alloc, text, model, s, pairs, *at, lines)?;
        steps.push(step)?;
    }
    Ok(steps)
}

// What follows the first line: the steps, with the pairs of zones that are due, and the line END.
fn read_to_end(
    alloc: Global,
    text: &mut Vec<u8>,
    model: &FlowModel,
    s: u32,
    pairs: &mut ZonePairs,
    lines: &mut AllLines,
) -> Result<Vec<ListedStep>, Fault>
    requires size { HasSize model.now.grid }
    requires few { length model.now.periods ≤ 1000 }
    requires digits { s ≤ 18 }
    requires pairs { ArePairs model.now pairs.old }
    ensures { Has (λ v. v.items) result (steps_to_end model.now s (pairs_in model.now (zones_of pairs.old)) lines.old) }
{
    let times = times(alloc, model)?;
    let steps = read_steps(alloc, text, model, s, pairs, times.as_slice(), lines)?;
    lines.expect(b"END")?;
    lines.end()?;
    Ok(steps)
}

// The same of a model with these zones.
fn read_zoned(
    alloc: Global,
    text: &mut Vec<u8>,
    model: &FlowModel,
    s: u32,
    zones: Option<&[u32]>,
    lines: &mut AllLines,
) -> Result<Vec<ListedStep>, Fault>
    requires size { HasSize model.now.grid }
    requires few { length model.now.periods ≤ 1000 }
    requires digits { s ≤ 18 }
    requires zones { IfSome zones (λ z. CanPair model.now z.now) }
    ensures { Has (λ v. v.items) result (steps_to_end model.now s (pairs_in model.now (option_map (λ z. z.now) zones.entry)) lines.old) }
{
    let mut pairs = ZonePairs::new(alloc, model, zones)?;
    read_to_end(alloc, text, model, s, &mut pairs, lines)
}

// The steps of a listing of a model, or of all models between two decks.
#[tactic(auto, unfolding(crate::specs::Reading::listing_at))]
fn read_lines(
    alloc: Global,
    between: bool,
    model: &FlowModel,
    s: u32,
    zones: Option<&[u32]>,
    lines: &mut AllLines,
) -> Result<Vec<ListedStep>, Fault>
    requires size { HasSize model.now.grid }
    requires few { length model.now.periods ≤ 1000 }
    requires digits { s ≤ 18 }
    requires zones { IfSome zones (λ z. CanPair model.now z.now) }
    ensures { Has (λ v. v.items) result (listing_at between model.now s (pairs_in model.now (option_map (λ z. z.now) zones.entry)) lines.old) }
{
    let mut text = Vec::new(alloc);
    read_first(&mut text, between, model, s, lines)?;
    read_zoned(alloc, &mut text, model, s, zones, lines)
}

// The steps of a listing of a model with convertible layers.
#[tactic(auto, unfolding(crate::specs::Reading::convertible_listing_at))]
fn read_convertible_lines(
    alloc: Global,
    model: &FlowModel,
    s: u32,
    zones: Option<&[u32]>,
    lines: &mut AllLines,
) -> Result<Vec<ListedStep>, Fault>
    requires size { HasSize model.now.grid }
    requires few { length model.now.periods ≤ 1000 }
    requires digits { s ≤ 18 }
    requires zones { IfSome zones (λ z. CanPair model.now z.now) }
    ensures { Has (λ v. v.items) result (convertible_listing_at model.now s (pairs_in model.now (option_map (λ z. z.now) zones.entry)) lines.old) }
{
    let mut text = Vec::new(alloc);
    read_convertible_first(&mut text, model, s, lines)?;
    read_zoned(alloc, &mut text, model, s, zones, lines)
}

// The refusal of a listing's file.
fn listing_fault(alloc: Global, file: &str, fault: Fault) -> TextFault
    ensures { (read : Result (List ListedStep) ℕ) → Stops fault read → StopsText result (or_bad_listing file.now read) }
{
    match fault {
        Fault::BadLine(number) => text_fault(alloc, Code::BadListing, file, number),
        Fault::Memory => TextFault::Memory,
    }
}

/// The listing in a file, for this model and s digits of conductances: its lines are the first line,
/// of version 2 or of version 1, the lines of its steps, END, and no others. With `between` it is a listing for all models
/// between two decks, whose first line is of version 2 and ends with TO. With a zone file each step has a line ZONE for
/// each pair of zones that share a face in its stress period, in order, else none; `zones` has the zone of each cell.
/// Otherwise the first line of another form is refused as BadListing; a missing line has the number of the last line plus
/// one.
pub fn read_listing(
    alloc: Global,
    between: bool,
    model: &FlowModel,
    file: &str,
    bytes: &[u8],
    s: u32,
    zones: Option<&[u32]>,
) -> Result<Listing, TextFault>
    requires size { HasSize model.now.grid }
    requires few { length model.now.periods ≤ 1000 }
    requires digits { s ≤ 18 }
    requires zones { IfSome zones (λ z. CanPair model.now z.now) }
    ensures reads { HasText (λ l. l) result (listing_in between model.now s (pairs_in model.now (option_map (λ z. z.now) zones.entry)) file.now bytes.now) }
    ensures listed { IfOk result (λ l. AreListed model.now (pairs_in model.now (option_map (λ z. z.now) zones.entry)) l) }
{
    let mut lines = AllLines::new(bytes);
    match read_lines(alloc, between, model, s, zones, &mut lines) {
        Ok(steps) => Ok(Listed::new(steps)),
        Err(fault) => Err(listing_fault(alloc, file, fault)),
    }
}

/// The listing of a model with convertible layers in a file, read as `read_listing` reads that of a model; its first line is of version 2 and ends with
/// CONVERTIBLE.
pub fn read_convertible_listing(
    alloc: Global,
    model: &FlowModel,
    file: &str,
    bytes: &[u8],
    s: u32,
    zones: Option<&[u32]>,
) -> Result<Listing, TextFault>
    requires size { HasSize model.now.grid }
    requires few { length model.now.periods ≤ 1000 }
    requires digits { s ≤ 18 }
    requires zones { IfSome zones (λ z. CanPair model.now z.now) }
    ensures reads { HasText (λ l. l) result (convertible_listing_in model.now s (pairs_in model.now (option_map (λ z. z.now) zones.entry)) file.now bytes.now) }
    ensures listed { IfOk result (λ l. AreListed model.now (pairs_in model.now (option_map (λ z. z.now) zones.entry)) l) }
{
    let mut lines = AllLines::new(bytes);
    match read_convertible_lines(alloc, model, s, zones, &mut lines) {
        Ok(steps) => Ok(Listed::new(steps)),
        Err(fault) => Err(listing_fault(alloc, file, fault)),
    }
}
