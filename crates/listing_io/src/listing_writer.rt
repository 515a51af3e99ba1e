// The pieces of a listing.
ghost use Rattle.std.specs.Prelude.{◌≡◌, ◌≤◌, ◌++◌, [], ◌∷◌, codes, length, map, slice_index_or, IfOk};
ghost use Rattle.std.specs.Fmt.{signed_decimal};
ghost use Rattle.model_types.specs.{cell_count, HasSize};
ghost use Rattle.budget_bounds.specs.{place_of, no_pair};
ghost use Rattle.listing_io.specs.{convertible_first_line, first_text, head_lines, head_pair, numbers_text, printed_terms, step_text, term_line, text_of};
ghost use Rattle.listing_io.specs.{titled_line, zone_line, zone_pair};

use crate::pair_lines::{CellWord, Row, push_row, push_row_if};
use crate::places::{has_evt, push_time_line, push_word};
use budget_bounds::{Budget, TermPair};
use itoa::Buffer;
use model_types::{FlowModel, Grid, TimeStep};
use std::alloc::{AllocError, Global};
use step_problem::{Bound, Dir, Term, ZoneFlow};

fn push_signed(text: &mut Vec<u8>, n: i64) -> Result<(), AllocError>
    ensures { IfOk result (λ _. text.new.items ≡ text.old.items ++ signed_decimal n) }
{
    let mut buffer = Buffer::new();
    text.extend_from_slice(buffer.format(n).as_bytes())
}

fn push_number_word(text: &mut Vec<u8>, n: u32) -> Result<(), AllocError>
    ensures { IfOk result (λ _. text.new.items ≡ text.old.items ++ numbers_text (n ∷ [])) }
{
    push_word(text, u64::from(n))
}

// The first line up to its unit.
fn push_digits(text: &mut Vec<u8>, title: &[u8], s: u32) -> Result<(), AllocError>
    ensures { IfOk result (λ _. text.new.items ≡ text.old.items ++ (title.now ++ codes " DIGITS" ++ numbers_text (s ∷ []) ++ codes " UNIT ")) }
{
    text.extend_from_slice(title)?;
    text.extend_from_slice(b" DIGITS")?;
    push_number_word(text, s)?;
    text.extend_from_slice(b" UNIT ")?;
    Ok(())
}

/// Writes the first line with this title, without its line feed: with `between` that of a listing for all models between
/// two decks.
pub fn push_first_line(
    text: &mut Vec<u8>,
    title: &[u8],
    between: bool,
    model: &FlowModel,
    s: u32,
) -> Result<(), AllocError>
    ensures { IfOk result (λ _. text.new.items ≡ text.old.items ++ titled_line title.now between model.now s) }
{
    push_digits(text, title, s)?;
    push_signed(text, model.lenuni)?;
    if between {
        text.extend_from_slice(b" TO")?;
    }
    Ok(())
}

// Writes the first line of a listing of a model with convertible layers, without its line feed.
pub(crate) fn push_convertible_first_line(
    text: &mut Vec<u8>,
    model: &FlowModel,
    s: u32,
) -> Result<(), AllocError>
    ensures { IfOk result (λ _. text.new.items ≡ text.old.items ++ convertible_first_line model.now s) }
{
    push_first_line(text, b"HEADS 2", false, model, s)?;
    text.extend_from_slice(b" CONVERTIBLE")
}

/// The first line of a listing: its version, the number s of digits of conductances, and LENUNI; with `between` the word
/// TO after them, for a listing of all models between two decks.
#[tactic(auto, unfolding(crate::specs::Listing::first_text))]
pub fn write_first(
    alloc: Global,
    between: bool,
    model: &FlowModel,
    s: u32,
) -> Result<Vec<u8>, AllocError>
    ensures { IfOk result (λ text. text.items ≡ first_text between model.now s) }
{
    let mut text = Vec::new(alloc);
    push_first_line(&mut text, b"HEADS 2", between, model, s)?;
    text.push(b'\n')?;
    Ok(text)
}

/// The two numbers of a bound.
pub fn head_pair(bound: Bound) -> TermPair
    ensures { result ≡ head_pair bound }
{
    TermPair {
        lo: i128::from(bound.low),
        hi: i128::from(bound.high),
    }
}

fn push_heads(text: &mut Vec<u8>, model: &FlowModel, heads: &[Bound]) -> Result<(), AllocError>
    requires size { HasSize model.now.grid }
    requires heads { length heads.now ≡ cell_count model.now.grid }
    ensures { IfOk result (λ _. text.new.items ≡ text.old.items ++ text_of (head_lines model.now heads.now)) }
{
    for cell in 0..heads.len() {
        let id = cell as u32;
        let pair = head_pair(heads[cell]);
        push_row_if(
            text,
            &model.grid,
            model.is_active(id),
            Row::Cell(CellWord::Head, id),
            pair,
        )?;
    }
    Ok(())
}

// The lines of the terms in one direction.
fn push_terms(
    text: &mut Vec<u8>,
    grid: &Grid,
    evt: bool,
    s: u32,
    dir: Dir,
    pairs: &[TermPair; 8],
) -> Result<(), AllocError>
    requires size { HasSize grid.now }
    requires digits { s ≤ 18 }
    ensures { IfOk result (λ _. text.new.items ≡ text.old.items
        ++ text_of (map (λ t. term_line s dir t (slice_index_or pairs.now (place_of t) no_pair))
        (printed_terms evt))) }
{
    push_row(text, grid, Row::Term(s, dir, Term::Storage), pairs[0])?;
    push_row(text, grid, Row::Term(s, dir, Term::ConstantHead), pairs[1])?;
    push_row(text, grid, Row::Term(s, dir, Term::Wells), pairs[2])?;
    push_row(text, grid, Row::Term(s, dir, Term::Drains), pairs[3])?;
    push_row(text, grid, Row::Term(s, dir, Term::RiverLeakage), pairs[4])?;
    push_row(text, grid, Row::Term(s, dir, Term::HeadDepBounds), pairs[5])?;
    push_row(text, grid, Row::Term(s, dir, Term::Recharge), pairs[6])?;
    push_row_if(text, grid, evt, Row::Term(s, dir, Term::Et), pairs[7])?;
    Ok(())
}

fn zone_pair(zone: ZoneFlow) -> TermPair
    ensures { result ≡ zone_pair zone }
{
    TermPair {
        lo: zone.lo,
        hi: zone.hi,
    }
}

/// Writes the lines of zone flows.
pub fn push_zones(
    text: &mut Vec<u8>,
    grid: &Grid,
    s: u32,
    zones: &[ZoneFlow],
) -> Result<(), AllocError>
    requires size { HasSize grid.now }
    requires digits { s ≤ 18 }
    ensures { IfOk result (λ _. text.new.items ≡ text.old.items ++ text_of (map (zone_line s) zones.now)) }
{
    for zone in zones {
        let row = Row::Zone(s, zone.from, zone.to);
        push_row(text, grid, row, zone_pair(*zone))?;
    }
    Ok(())
}

/// A step of a listing: the heads of all cells of the grid, of which the active ones are printed, the budget with ET
/// if the model has EVT, and the zone flows.
#[tactic(auto, unfolding(crate::specs::Listing::step_text, crate::specs::Listing::step_lines, crate::specs::Listing::term_lines))]
pub fn write_step(
    alloc: Global,
    model: &FlowModel,
    s: u32,
    at: TimeStep,
    heads: &[Bound],
    budget: &Budget,
    zones: &[ZoneFlow],
) -> Result<Vec<u8>, AllocError>
    requires size { HasSize model.now.grid }
    requires digits { s ≤ 18 }
    requires heads { length heads.now ≡ cell_count model.now.grid }
    ensures { IfOk result (λ text. text.items ≡ step_text model.now s at heads.now budget.now zones.now) }
{
    let evt = has_evt(model);
    let mut text = Vec::new(alloc);
    push_time_line(&mut text, b"STEP", at)?;
    push_heads(&mut text, model, heads)?;
    push_terms(&mut text, &model.grid, evt, s, Dir::In, &budget.into)?;
    push_terms(&mut text, &model.grid, evt, s, Dir::Out, &budget.out)?;
    push_zones(&mut text, &model.grid, s, zones)?;
    Ok(text)
}
