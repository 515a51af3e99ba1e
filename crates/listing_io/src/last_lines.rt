// The last lines of a run that name a refusal, a time step, or a place in it.
ghost use Rattle.std.specs.Prelude.{◌≡◌, ◌++◌, IfOk};
ghost use Rattle.model_types.specs.{HasSize};
ghost use Rattle.listing_io.specs.{cell_text, code_text, fault_place, no_bound_line, no_bound_text, not_certified_line, not_gentle_line, open_place};
ghost use Rattle.listing_io.specs.{refused_line, step_word, unfinished_line};

use crate::places::{
    dir_name, push_place, push_three, push_time_line, push_two, push_word, side_word, term_word,
};
use model_types::{Grid, TimeStep};
use outside::Refusal;
use std::alloc::{AllocError, Global};
use step_problem::{NoBound, Place, StepRefusal};

fn push_code(text: &mut Vec<u8>, number: u8, word: &str) -> Result<(), AllocError>
    ensures { IfOk result (λ _. text.new.items ≡ text.old.items ++ code_text (record { number = number; word = word.now })) }
{
    push_word(text, u64::from(number))?;
    text.push(b' ')?;
    text.extend_from_slice(word.as_bytes())
}

fn push_cell(text: &mut Vec<u8>, at: &Option<[u32; 3]>) -> Result<(), AllocError>
    ensures { IfOk result (λ _. text.new.items ≡ text.old.items ++ cell_text at.now) }
{
    match at {
        Some([layer, row, col]) => push_three(
            text,
            u64::from(*layer),
            u64::from(*row),
            u64::from(*col),
        ),
        None => Ok(()),
    }
}

/// The line of refused files.
#[tactic(auto, unfolding(crate::specs::LastLines::refused_line))]
pub fn write_refused(alloc: Global, refusal: &Refusal) -> Result<Vec<u8>, AllocError>
    ensures { IfOk result (λ text. text.items ≡ refused_line refusal.now) }
{
    let mut text = Vec::from_slice(alloc, b"REFUSED")?;
    push_code(&mut text, refusal.code.number(), refusal.code.word())?;
    text.push(b' ')?;
    text.extend_from_slice(refusal.file.as_str().as_bytes())?;
    push_word(&mut text, u64::from(refusal.line))?;
    push_cell(&mut text, &refusal.at)?;
    text.push(b'\n')?;
    Ok(text)
}

// The word of a step's refusal.
fn step_word(number: u8) -> &'static str
    ensures { result.now ≡ step_word number }
{
    match StepRefusal::of_number(number) {
        Some(refusal) => refusal.word(),
        None => "",
    }
}

fn push_fault_place(text: &mut Vec<u8>, grid: &Grid, place: Place) -> Result<(), AllocError>
    requires { HasSize grid.now }
    ensures { IfOk result (λ _. text.new.items ≡ text.old.items ++ fault_place grid.now place) }
{
    match place {
        Place::Cell(cell, _) => push_place(text, grid, cell),
        Place::Term(dir, term) => {
            text.push(b' ')?;
            text.extend_from_slice(dir_name(dir))?;
            text.extend_from_slice(term_word(term))
        }
        Place::Zone(from, to) => {
            text.extend_from_slice(b" ZONE")?;
            push_two(text, from, to)
        }
    }
}

fn push_open_place(text: &mut Vec<u8>, grid: &Grid, place: Place) -> Result<(), AllocError>
    requires { HasSize grid.now }
    ensures { IfOk result (λ _. text.new.items ≡ text.old.items ++ open_place grid.now place) }
{
    push_fault_place(text, grid, place)?;
    if let Place::Cell(_, side) = place {
        text.extend_from_slice(side_word(side))?;
    }
    Ok(())
}

/// Writes the line of a step without bounds, without its line feed.
#[tactic(auto, unfolding(crate::specs::LastLines::no_bound_text))]
pub fn push_no_bound(
    text: &mut Vec<u8>,
    grid: &Grid,
    at: TimeStep,
    fault: NoBound,
) -> Result<(), AllocError>
    requires { HasSize grid.now }
    ensures { IfOk result (λ _. text.new.items ≡ text.old.items ++ no_bound_text grid.now at fault) }
{
    text.extend_from_slice(b"NOBOUND")?;
    push_code(text, fault.code, step_word(fault.code))?;
    push_two(text, at.period, at.step)?;
    push_fault_place(text, grid, fault.place)
}

/// The line of a step without bounds.
#[tactic(auto, unfolding(crate::specs::LastLines::no_bound_line))]
pub fn write_no_bound(
    alloc: Global,
    grid: &Grid,
    at: TimeStep,
    fault: NoBound,
) -> Result<Vec<u8>, AllocError>
    requires { HasSize grid.now }
    ensures { IfOk result (λ text. text.items ≡ no_bound_line grid.now at fault) }
{
    let mut text = Vec::new(alloc);
    push_no_bound(&mut text, grid, at, fault)?;
    text.push(b'\n')?;
    Ok(text)
}

/// The line of a step that the rounds didn't settle.
#[tactic(auto, unfolding(crate::specs::LastLines::unfinished_line))]
pub fn write_unfinished(alloc: Global, at: TimeStep) -> Result<Vec<u8>, AllocError>
    ensures { IfOk result (λ text. text.items ≡ unfinished_line at) }
{
    let mut text = Vec::new(alloc);
    push_time_line(&mut text, b"UNFINISHED", at)?;
    Ok(text)
}

/// The line of a listing that isn't certified at this place of a step.
#[tactic(auto, unfolding(crate::specs::LastLines::not_certified_line))]
pub fn write_not_certified(
    alloc: Global,
    grid: &Grid,
    at: TimeStep,
    place: Place,
) -> Result<Vec<u8>, AllocError>
    requires { HasSize grid.now }
    ensures { IfOk result (λ text. text.items ≡ not_certified_line grid.now at place) }
{
    let mut text = Vec::from_slice(alloc, b"NOT CERTIFIED")?;
    push_two(&mut text, at.period, at.step)?;
    push_open_place(&mut text, grid, place)?;
    text.push(b'\n')?;
    Ok(text)
}

/// The line of a listing of which not all heads between the listed ones of this cell of a step are gentle.
#[tactic(auto, unfolding(crate::specs::LastLines::not_gentle_line))]
pub fn write_not_gentle(
    alloc: Global,
    grid: &Grid,
    at: TimeStep,
    cell: u32,
) -> Result<Vec<u8>, AllocError>
    requires { HasSize grid.now }
    ensures { IfOk result (λ text. text.items ≡ not_gentle_line grid.now at cell) }
{
    let mut text = Vec::from_slice(alloc, b"NOT CERTIFIED")?;
    push_two(&mut text, at.period, at.step)?;
    push_place(&mut text, grid, cell)?;
    text.extend_from_slice(b" GENTLE\n")?;
    Ok(text)
}
