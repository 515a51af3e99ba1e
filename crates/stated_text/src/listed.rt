// The listing after the decks of a text.
ghost use Rattle.std.specs.Prelude.{◌≡◌, ◌≤◌, ◌-◌, IfOk, IfSome, length, option_map};
ghost use Rattle.outside.specs.{lines};
ghost use Rattle.record_lines.specs.{HasText};
ghost use Rattle.model_types.specs.{HasSize};
ghost use Rattle.zone_pairs.specs.{CanPair, pairs_in};
ghost use Rattle.stated_text.specs.{IsLaterFault, IsStated, is_current, steps_after};

use listing_io::{Listing, read_listing, write_first};
use model_types::FlowModel;
use outside::{Code, TextFault, text_fault};
use record_lines::cut_line;
use std::alloc::{AllocError, Global};

// Whether a listing begins with its first line of version 2.
#[tactic(auto, unfolding(outside::specs::Names::lines))]
fn is_current(
    alloc: Global,
    between: bool,
    model: &FlowModel,
    s: u32,
    rest: &[u8],
) -> Result<bool, AllocError>
    ensures { IfOk result (λ b. b ≡ is_current between model.now s (lines rest.now)) }
{
    if rest.is_empty() {
        return Ok(false);
    }
    let due = write_first(alloc, between, model, s)?;
    let (line, _) = cut_line(rest);
    let mut row = Vec::from_slice(alloc, line)?;
    row.push(b'\n')?;
    Ok(due.as_slice() == row.as_slice())
}

// A fault, with its line that many lines later.
fn later_fault(lines: u32, fault: TextFault) -> TextFault
    ensures { IsLaterFault lines fault result }
{
    match fault {
        TextFault::Refused(mut refusal) => {
            refusal.line = lines.saturating_add(refusal.line);
            TextFault::Refused(refusal)
        }
        TextFault::Memory => TextFault::Memory,
    }
}

/// The listing at the end of a text, from this line on: its lines are those of a listing of version 2 of these steps, for
/// this model or with `between` for all models between two, as `read_listing` reads it. Otherwise the first line of another
/// form is refused as BadListing of the text, at its line there.
#[tactic(auto, using(crate::proofs::ListedTexts::listing_was))]
pub fn read_steps(
    alloc: Global,
    between: bool,
    model: &FlowModel,
    text: &str,
    line: u32,
    rest: &[u8],
    s: u32,
    zones: Option<&[u32]>,
) -> Result<Listing, TextFault>
    requires size { HasSize model.now.grid }
    requires few { length model.now.periods ≤ 1000 }
    requires digits { s ≤ 18 }
    requires zones { IfSome zones (λ z. CanPair model.now z.now) }
    ensures reads { HasText (λ l. l) result
        (steps_after between model.now s (pairs_in model.now (option_map (λ z. z.now) zones.entry)) text.now line rest.now) }
    ensures stated { IfOk result (IsStated between model.now s (pairs_in model.now (option_map (λ z. z.now) zones.entry)) rest.now) }
{
    if !is_current(alloc, between, model, s, rest)? {
        return Err(text_fault(alloc, Code::BadListing, text, line));
    }
    match read_listing(alloc, between, model, text, rest, s, zones) {
        Ok(steps) => Ok(steps),
        Err(fault) => Err(later_fault(line.saturating_sub(1), fault)),
    }
}
