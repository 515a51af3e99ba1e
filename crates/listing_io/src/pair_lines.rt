// Lines with two numbers, by what they are about.
ghost use Rattle.std.specs.Prelude.{◌≡◌, ◌++◌, ◌≤◌, [], ◌∷◌, cond, nat_abs, IfOk};
ghost use Rattle.model_types.specs.{HasSize};
ghost use Rattle.listing_io.specs.{ended_line, flow_form, text_of, IsForm, Gives, pair_at, pair_if, HasDigits, form_of, front_of, row_line};

use crate::fault::Fault;
use crate::lines::AllLines;
use crate::pairs::{PairForm, pair_in, push_pair};
use crate::places::{cell_word, dir_name, push_place, push_two, term_word};
use budget_bounds::TermPair;
use model_types::Grid;
use std::alloc::AllocError;
use step_problem::problem::HEAD_LIMIT;
use step_problem::{Dir, Term};

/// The greatest magnitude of a flow.
const FLOW_LIMIT: u128 = (1 << 126) - 1;

/// What the two numbers of a cell's line are: its heads; or in the listing of a plan its heads without the plan, its heads
/// with it, and their difference.
#[derive(Clone, Copy)]
pub enum CellWord {
    Head,
    Base,
    Plan,
    Drawdown,
}

/// What a line with two numbers is about: a cell, by its number; a term of the budget; what a term gives more under a plan;
/// or the flow from one zone to another. The flows have this number s of digits of conductances.
#[derive(Clone, Copy)]
pub enum Row {
    Cell(CellWord, u32),
    Term(u32, Dir, Term),
    Source(u32, Term),
    Zone(u32, u32, u32),
}

fn flow_form(s: u32, back: &[u8]) -> PairForm<'_>
    requires { s ≤ 18 }
    ensures { result ≡ flow_form s back.now }
{
    PairForm {
        places: s + 9,
        limit: FLOW_LIMIT,
        back,
    }
}

// The form of a line's numbers.
#[tactic(auto, using(crate::proofs::Readers::row_is_form))]
fn form_of(row: Row) -> PairForm<'static>
    requires { HasDigits row }
    ensures value { result ≡ form_of row }
    ensures form { IsForm (form_of row) }
{
    match row {
        Row::Cell(_, _) => PairForm {
            places: 9,
            limit: HEAD_LIMIT as u128,
            back: b"",
        },
        Row::Term(s, _, term) => flow_form(s, term_word(term)),
        Row::Source(s, term) => flow_form(s, term_word(term)),
        Row::Zone(s, _, _) => flow_form(s, b""),
    }
}

// Writes the beginning of a line.
fn push_front(text: &mut Vec<u8>, grid: &Grid, row: Row) -> Result<(), AllocError>
    requires { HasSize grid.now }
    ensures { IfOk result (λ _. text.new.items ≡ text.old.items ++ front_of grid.now row) }
{
    match row {
        Row::Cell(word, cell) => {
            text.extend_from_slice(cell_word(word))?;
            push_place(text, grid, cell)?;
            text.push(b' ')?;
            Ok(())
        }
        Row::Term(_, dir, _) => {
            text.extend_from_slice(dir_name(dir))?;
            text.push(b' ')?;
            Ok(())
        }
        Row::Source(_, _) => text.extend_from_slice(b"SOURCE "),
        Row::Zone(_, from, to) => {
            text.extend_from_slice(b"ZONE")?;
            push_two(text, from, to)?;
            text.push(b' ')?;
            Ok(())
        }
    }
}

/// Writes a line.
pub fn push_row(text: &mut Vec<u8>, grid: &Grid, row: Row, pair: TermPair) -> Result<(), AllocError>
    requires size { HasSize grid.now }
    requires digits { HasDigits row }
    ensures { IfOk result (λ _. text.new.items ≡ text.old.items ++ ended_line (row_line grid.now row pair)) }
{
    let form = form_of(row);
    push_front(text, grid, row)?;
    push_pair(text, &form, pair)?;
    text.push(b'\n')?;
    Ok(())
}

/// Writes a line, if it is there.
pub fn push_row_if(
    text: &mut Vec<u8>,
    grid: &Grid,
    there: bool,
    row: Row,
    pair: TermPair,
) -> Result<(), AllocError>
    requires size { HasSize grid.now }
    requires digits { HasDigits row }
    ensures { IfOk result (λ _. text.new.items ≡ text.old.items ++ text_of (cond there (row_line grid.now row pair ∷ []) [])) }
{
    if there {
        push_row(text, grid, row, pair)
    } else {
        Ok(())
    }
}

// The two numbers of the next line, which must begin with this text; the text is used up.
#[tactic(auto, unfolding(crate::specs::Reading::pair_at))]
fn read_pair(text: &mut Vec<u8>, form: &PairForm, lines: &mut AllLines) -> Result<TermPair, Fault>
    requires { IsForm form.now }
    ensures pair { Gives (λ p. p) result lines.new (pair_at text.old.items form.now lines.old) }
    ensures lo { IfOk result (λ p. nat_abs p.lo ≤ form.now.limit) }
    ensures hi { IfOk result (λ p. nat_abs p.hi ≤ form.now.limit) }
{
    let number = lines.number();
    let line = lines.take()?;
    match pair_in(text, form, line)? {
        Some(pair) => Ok(pair),
        None => Err(Fault::BadLine(number)),
    }
}

/// The two numbers of the next line, which must be of this row. The text is used up.
pub fn read_row(
    text: &mut Vec<u8>,
    grid: &Grid,
    row: Row,
    lines: &mut AllLines,
) -> Result<TermPair, Fault>
    requires size { HasSize grid.now }
    requires digits { HasDigits row }
    ensures pair { Gives (λ p. p) result lines.new (pair_at (front_of grid.now row) (form_of row) lines.old) }
    ensures lo { IfOk result (λ p. nat_abs p.lo ≤ (form_of row).limit) }
    ensures hi { IfOk result (λ p. nat_abs p.hi ≤ (form_of row).limit) }
{
    let form = form_of(row);
    text.clear();
    push_front(text, grid, row)?;
    read_pair(text, &form, lines)
}

/// The two numbers of a line, or zeros, if it isn't there.
pub fn read_row_if(
    text: &mut Vec<u8>,
    grid: &Grid,
    there: bool,
    row: Row,
    lines: &mut AllLines,
) -> Result<TermPair, Fault>
    requires size { HasSize grid.now }
    requires digits { HasDigits row }
    ensures pair { Gives (λ p. p) result lines.new (pair_if there (front_of grid.now row) (form_of row) lines.old) }
    ensures lo { IfOk result (λ p. nat_abs p.lo ≤ (form_of row).limit) }
    ensures hi { IfOk result (λ p. nat_abs p.hi ≤ (form_of row).limit) }
{
    if there {
        read_row(text, grid, row, lines)
    } else {
        Ok(TermPair { lo: 0, hi: 0 })
    }
}
