// The words at the beginning of a listing's lines.
ghost use Rattle.std.specs.Prelude.{◌≡◌, ◌++◌, [], ◌∷◌, codes, decimal, IfOk};
ghost use Rattle.step_problem.specs.{dir_name, side_name, term_name};
ghost use Rattle.model_types.specs.{place, HasSize};
ghost use Rattle.listing_io.specs.{cell_word, ended_line, has_evt, numbers_text, time_text};

use crate::pair_lines::CellWord;
use fixed_text::push_number;
use model_types::{FlowModel, Grid, TimeStep};
use std::alloc::AllocError;
use step_problem::{Dir, Side, Term};

/// Writes a blank and a number.
pub(crate) fn push_word(text: &mut Vec<u8>, n: u64) -> Result<(), AllocError>
    ensures { IfOk result (λ _. text.new.items ≡ text.old.items ++ (codes " " ++ decimal n)) }
{
    text.push(b' ')?;
    push_number(text, u128::from(n))
}

/// Writes two numbers, each after a blank.
pub fn push_two(text: &mut Vec<u8>, a: u32, b: u32) -> Result<(), AllocError>
    ensures { IfOk result (λ _. text.new.items ≡ text.old.items ++ numbers_text (a ∷ b ∷ [])) }
{
    push_word(text, u64::from(a))?;
    push_word(text, u64::from(b))
}

/// Writes three numbers, each after a blank.
pub(crate) fn push_three(text: &mut Vec<u8>, a: u64, b: u64, c: u64) -> Result<(), AllocError>
    ensures { IfOk result (λ _. text.new.items ≡ text.old.items ++ numbers_text (a ∷ b ∷ c ∷ [])) }
{
    push_word(text, a)?;
    push_word(text, b)?;
    push_word(text, c)
}

/// Writes the layer, the row and the column of a cell.
pub fn push_place(text: &mut Vec<u8>, grid: &Grid, cell: u32) -> Result<(), AllocError>
    requires { HasSize grid.now }
    ensures { IfOk result (λ _. text.new.items ≡ text.old.items ++ numbers_text (place grid.now cell)) }
{
    let layer = cell / (grid.rows * grid.cols);
    let row = cell / grid.cols % grid.rows;
    let column = cell % grid.cols;
    push_three(
        text,
        u64::from(layer) + 1,
        u64::from(row) + 1,
        u64::from(column) + 1,
    )
}

/// Writes a word, and a time step by its stress period and its number.
pub fn push_time(text: &mut Vec<u8>, word: &[u8], at: TimeStep) -> Result<(), AllocError>
    ensures { IfOk result (λ _. text.new.items ≡ text.old.items ++ (word.now ++ time_text at)) }
{
    text.extend_from_slice(word)?;
    push_two(text, at.period, at.step)
}

/// Writes the line of a word and a time step.
pub fn push_time_line(text: &mut Vec<u8>, word: &[u8], at: TimeStep) -> Result<(), AllocError>
    ensures { IfOk result (λ _. text.new.items ≡ text.old.items ++ ended_line (word.now ++ time_text at)) }
{
    push_time(text, word, at)?;
    text.push(b'\n')?;
    Ok(())
}

/// The word of a cell's line.
pub fn cell_word(word: CellWord) -> &'static [u8]
    ensures { result.now ≡ cell_word word }
{
    match word {
        CellWord::Head => b"HEAD",
        CellWord::Base => b"BASE",
        CellWord::Plan => b"PLAN",
        CellWord::Drawdown => b"DRAWDOWN",
    }
}

/// The name of a direction.
pub(crate) fn dir_name(dir: Dir) -> &'static [u8]
    ensures { result.now ≡ dir_name dir }
{
    match dir {
        Dir::In => b"IN",
        Dir::Out => b"OUT",
    }
}

/// The word of a side, after a blank.
pub fn side_word(side: Side) -> &'static [u8]
    ensures { result.now ≡ codes " " ++ side_name side }
{
    match side {
        Side::Low => b" LOW",
        Side::High => b" HIGH",
    }
}

/// The name of a term, after a blank.
pub fn term_word(term: Term) -> &'static [u8]
    ensures { result.now ≡ codes " " ++ term_name term }
{
    match term {
        Term::Storage => b" STORAGE",
        Term::ConstantHead => b" CONSTANT HEAD",
        Term::Wells => b" WELLS",
        Term::Drains => b" DRAINS",
        Term::RiverLeakage => b" RIVER LEAKAGE",
        Term::HeadDepBounds => b" HEAD DEP BOUNDS",
        Term::Recharge => b" RECHARGE",
        Term::Et => b" ET",
    }
}

/// Whether the model has EVT.
pub fn has_evt(model: &FlowModel) -> bool
    ensures { result ≡ has_evt model.now }
{
    model.nevtop != 0
}
