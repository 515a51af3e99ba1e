// A view of heads while they settle, as text.
ghost use Rattle.std.specs.Prelude.{◌≡◌, ◌++◌, ◌<◌, length, IfOk};
ghost use Rattle.step_problem.specs.{entries_at};
ghost use Rattle.model_types.specs.{HasSize};
ghost use Rattle.listing_io.specs.{text_of, variable_lines, view_text};

use crate::listing_writer::head_pair;
use crate::pair_lines::{CellWord, Row, push_row};
use crate::places::push_time_line;
use model_types::{Grid, TimeStep};
use std::alloc::{AllocError, Global};
use step_problem::{Bound, Problem};

// The cell number of a variable cell.
fn id_at(p: &Problem, cell: usize) -> u32
    requires { cell < length p.now }
    ensures { result ≡ (entries_at p.now cell).id }
{
    p.cell(cell).id
}

fn push_variable_cells(
    text: &mut Vec<u8>,
    grid: &Grid,
    p: &Problem,
    heads: &[Bound],
) -> Result<(), AllocError>
    requires size { HasSize grid.now }
    requires whole { length heads.now ≡ length p.now }
    ensures { IfOk result (λ _. text.new.items ≡ text.old.items ++ text_of (variable_lines grid.now p.now heads.now)) }
{
    for cell in 0..heads.len() {
        let row = Row::Cell(CellWord::Head, id_at(p, cell));
        push_row(text, grid, row, head_pair(heads[cell]))?;
    }
    Ok(())
}

/// A view of a time step: the line WATCH, then the heads of the problem's variable cells.
#[tactic(auto, unfolding(crate::specs::Listing::view_text))]
pub fn write_view(
    alloc: Global,
    grid: &Grid,
    at: TimeStep,
    p: &Problem,
    heads: &[Bound],
) -> Result<Vec<u8>, AllocError>
    requires size { HasSize grid.now }
    requires whole { length heads.now ≡ length p.now }
    ensures { IfOk result (λ text. text.items ≡ view_text grid.now at p.now heads.now) }
{
    let mut text = Vec::new(alloc);
    push_time_line(&mut text, b"WATCH", at)?;
    push_variable_cells(&mut text, grid, p, heads)?;
    Ok(text)
}
