// The last lines of a plan's run or check that name a part of a step, or a place in it.
ghost use Rattle.std.specs.Prelude.{◌≡◌, ◌++◌, IfOk};
ghost use Rattle.model_types.specs.{HasSize};
ghost use Rattle.plan_listing.specs.{line_word, part_word, plan_no_bound_line, plan_not_certified_line, plan_place, plan_unfinished_line};

use listing_io::{
    CellWord, cell_word, push_no_bound, push_place, push_time, push_two, side_word, term_word,
};
use model_types::{Grid, TimeStep};
use plan_chain::PlanPart;
use std::alloc::{AllocError, Global};
use step_problem::{NoBound, Side, Term};

/// Where a plan's listing isn't certified: at a side of one of a cell's three pairs, by its cell number; at a term's line SOURCE; or at the flow between
/// two zones.
#[derive(Clone, Copy)]
pub enum PlanPlace {
    Cell(PlanPart, u32, Side),
    Source(Term),
    Zone(u32, u32),
}

// The word after the line of a run that ends at a part.
fn part_word(part: PlanPart) -> &'static [u8]
    ensures { result.now ≡ part_word part }
{
    match part {
        PlanPart::Base => b"",
        PlanPart::Planned => b" PLAN",
        PlanPart::Differences => b" DRAWDOWN",
    }
}

// The word of a part's lines.
fn line_word(part: PlanPart) -> CellWord
    ensures { result ≡ line_word part }
{
    match part {
        PlanPart::Base => CellWord::Base,
        PlanPart::Planned => CellWord::Plan,
        PlanPart::Differences => CellWord::Drawdown,
    }
}

fn push_plan_place(text: &mut Vec<u8>, grid: &Grid, place: PlanPlace) -> Result<(), AllocError>
    requires { HasSize grid.now }
    ensures { IfOk result (λ _. text.new.items ≡ text.old.items ++ plan_place grid.now place) }
{
    match place {
        PlanPlace::Cell(part, cell, side) => {
            text.push(b' ')?;
            text.extend_from_slice(cell_word(line_word(part)))?;
            push_place(text, grid, cell)?;
            text.extend_from_slice(side_word(side))
        }
        PlanPlace::Source(term) => {
            text.extend_from_slice(b" SOURCE")?;
            text.extend_from_slice(term_word(term))
        }
        PlanPlace::Zone(from, to) => {
            text.extend_from_slice(b" ZONE")?;
            push_two(text, from, to)
        }
    }
}

/// The line of a step whose part has no bounds.
#[tactic(auto, unfolding(crate::specs::LastLines::plan_no_bound_line))]
pub fn write_plan_no_bound(
    alloc: Global,
    grid: &Grid,
    at: TimeStep,
    part: PlanPart,
    fault: NoBound,
) -> Result<Vec<u8>, AllocError>
    requires { HasSize grid.now }
    ensures { IfOk result (λ text. text.items ≡ plan_no_bound_line grid.now at part fault) }
{
    let mut text = Vec::new(alloc);
    push_no_bound(&mut text, grid, at, fault)?;
    text.extend_from_slice(part_word(part))?;
    text.push(b'\n')?;
    Ok(text)
}

/// The line of a step of which the rounds didn't settle a part.
#[tactic(auto, unfolding(crate::specs::LastLines::plan_unfinished_line))]
pub fn write_plan_unfinished(
    alloc: Global,
    at: TimeStep,
    part: PlanPart,
) -> Result<Vec<u8>, AllocError>
    ensures { IfOk result (λ text. text.items ≡ plan_unfinished_line at part) }
{
    let mut text = Vec::new(alloc);
    push_time(&mut text, b"UNFINISHED", at)?;
    text.extend_from_slice(part_word(part))?;
    text.push(b'\n')?;
    Ok(text)
}

/// The line of a plan's listing that isn't certified at this place of a step.
#[tactic(auto, unfolding(crate::specs::LastLines::plan_not_certified_line))]
pub fn write_plan_not_certified(
    alloc: Global,
    grid: &Grid,
    at: TimeStep,
    place: PlanPlace,
) -> Result<Vec<u8>, AllocError>
    requires { HasSize grid.now }
    ensures { IfOk result (λ text. text.items ≡ plan_not_certified_line grid.now at place) }
{
    let mut text = Vec::new(alloc);
    push_time(&mut text, b"NOT CERTIFIED", at)?;
    push_plan_place(&mut text, grid, place)?;
    text.push(b'\n')?;
    Ok(text)
}
