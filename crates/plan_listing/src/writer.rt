// The pieces of a plan's listing.
ghost use Rattle.std.specs.Prelude.{◌≡◌, ◌≤◌, ◌<◌, ◌++◌, length, map, slice_index_or, IfOk};
ghost use Rattle.model_types.specs.{cell_count, HasSize};
ghost use Rattle.budget_bounds.specs.{place_of, no_pair};
ghost use Rattle.listing_io.specs.{source_line, text_of};
ghost use Rattle.plan_listing.specs.{cells_lines, plan_cell_lines, plan_cells, plan_first_text, plan_step_text, source_terms};

use crate::listing::PlanCell;
use budget_bounds::TermPair;
use listing_io::{
    CellWord, Row, has_evt, head_pair, push_first_line, push_row, push_row_if, push_time_line,
    push_zones,
};
use model_types::{FlowModel, Grid, TimeStep};
use plan_sources::PlanFlows;
use std::alloc::{AllocError, Global};
use step_problem::{Bound, Term};

/// The first line of a plan's listing: its version, the number s of digits of conductances, and LENUNI; with `between` the word TO after them, for all
/// weathers between two decks.
#[tactic(auto, unfolding(crate::specs::Lines::plan_first_text))]
pub fn write_first_plan(
    alloc: Global,
    between: bool,
    model: &FlowModel,
    s: u32,
) -> Result<Vec<u8>, AllocError>
    ensures { IfOk result (λ text. text.items ≡ plan_first_text between model.now s) }
{
    let mut text = Vec::new(alloc);
    push_first_line(&mut text, b"DRAWDOWN 1", between, model, s)?;
    text.push(b'\n')?;
    Ok(text)
}

// The lines of a cell.
fn push_cell(
    text: &mut Vec<u8>,
    model: &FlowModel,
    cell: u32,
    pairs: PlanCell,
) -> Result<(), AllocError>
    requires { HasSize model.now.grid }
    ensures { IfOk result (λ _. text.new.items ≡ text.old.items ++ text_of (plan_cell_lines model.now cell pairs)) }
{
    let grid = &model.grid;
    let there = model.is_active(cell);
    let base = Row::Cell(CellWord::Base, cell);
    let planned = Row::Cell(CellWord::Plan, cell);
    let drawdown = Row::Cell(CellWord::Drawdown, cell);
    push_row_if(text, grid, there, base, head_pair(pairs.base))?;
    push_row_if(text, grid, there, planned, head_pair(pairs.planned))?;
    push_row_if(text, grid, there, drawdown, head_pair(pairs.difference))?;
    Ok(())
}

fn push_cells(
    text: &mut Vec<u8>,
    model: &FlowModel,
    base: &[Bound],
    planned: &[Bound],
    differences: &[Bound],
) -> Result<(), AllocError>
    requires size { HasSize model.now.grid }
    requires base { length base.now ≡ cell_count model.now.grid }
    requires planned { length planned.now ≡ cell_count model.now.grid }
    requires differences { length differences.now ≡ cell_count model.now.grid }
    ensures { IfOk result (λ _. text.new.items ≡ text.old.items ++ text_of (cells_lines model.now (plan_cells base.now planned.now differences.now))) }
{
    for cell in 0..base.len() {
        let pairs = PlanCell {
            base: base[cell],
            planned: planned[cell],
            difference: differences[cell],
        };
        push_cell(text, model, cell as u32, pairs)?;
    }
    Ok(())
}

// The lines of the terms of which a plan's water can come.
fn push_sources(
    text: &mut Vec<u8>,
    grid: &Grid,
    evt: bool,
    s: u32,
    pairs: &[TermPair; 8],
) -> Result<(), AllocError>
    requires size { HasSize grid.now }
    requires digits { s ≤ 18 }
    ensures { IfOk result (λ _. text.new.items ≡ text.old.items
        ++ text_of (map (λ t. source_line s t (slice_index_or pairs.now (place_of t) no_pair)) (source_terms evt))) }
{
    push_row(text, grid, Row::Source(s, Term::Storage), pairs[0])?;
    push_row(text, grid, Row::Source(s, Term::ConstantHead), pairs[1])?;
    push_row(text, grid, Row::Source(s, Term::Drains), pairs[3])?;
    push_row(text, grid, Row::Source(s, Term::RiverLeakage), pairs[4])?;
    push_row(text, grid, Row::Source(s, Term::HeadDepBounds), pairs[5])?;
    push_row_if(text, grid, evt, Row::Source(s, Term::Et), pairs[7])?;
    Ok(())
}

/// A step of a plan's listing: of all cells of the grid, of which the active ones are printed, the heads without the plan, those with it, and their
/// differences; and what flows more under the plan, with ET if the model has EVT.
pub fn write_plan_step(
    alloc: Global,
    model: &FlowModel,
    s: u32,
    at: TimeStep,
    base: &[Bound],
    planned: &[Bound],
    differences: &[Bound],
    flows: &PlanFlows,
) -> Result<Vec<u8>, AllocError>
    requires size { HasSize model.now.grid }
    requires digits { s ≤ 18 }
    requires base { length base.now ≡ cell_count model.now.grid }
    requires planned { length planned.now ≡ cell_count model.now.grid }
    requires differences { length differences.now ≡ cell_count model.now.grid }
    ensures { IfOk result (λ text. text.items ≡ plan_step_text model.now s
        (record { at = at; base = base.now; planned = planned.now; differences = differences.now; flows = flows.now })) }
{
    let mut text = Vec::new(alloc);
    push_time_line(&mut text, b"STEP", at)?;
    push_cells(&mut text, model, base, planned, differences)?;
    push_sources(
        &mut text,
        &model.grid,
        has_evt(model),
        s,
        &flows.sources.terms,
    )?;
    push_zones(&mut text, &model.grid, s, flows.zones.as_slice())?;
    Ok(text)
}
