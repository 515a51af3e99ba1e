// The reading of a step of a plan's listing.
ghost use Rattle.std.specs.Prelude.{◌≡◌, ◌≤◌, map, IfOk};
ghost use Rattle.model_types.specs.{HasSize};
ghost use Rattle.listing_io.specs.{Gives};
ghost use Rattle.plan_listing.specs.{plan_cell_at, plan_cells_at, plan_step_with, sources_at};

use crate::listing::{ListedPlanStep, PlanCell};
use budget_bounds::TermPair;
use listing_io::{
    AllLines, CellWord, Fault, Row, has_evt, read_bound, read_flows, read_row, read_row_if,
    read_title,
};
use model_types::{FlowModel, Grid, Listed, TimeStep};
use plan_sources::{PlanFlows, Sources};
use std::alloc::{AllocError, Global};
use step_problem::{Bound, Term};
use zone_pairs::ZonePair;

#[tactic(auto, unfolding(crate::specs::Reading::plan_cell_at))]
fn read_cell(
    text: &mut Vec<u8>,
    model: &FlowModel,
    cell: u32,
    lines: &mut AllLines,
) -> Result<PlanCell, Fault>
    requires { HasSize model.now.grid }
    ensures { Gives (λ x. x) result lines.new (plan_cell_at model.now cell lines.old) }
{
    let base = read_bound(text, model, CellWord::Base, cell, lines)?;
    let planned = read_bound(text, model, CellWord::Plan, cell, lines)?;
    let difference = read_bound(text, model, CellWord::Drawdown, cell, lines)?;
    Ok(PlanCell {
        base,
        planned,
        difference,
    })
}

fn read_cells(
    alloc: Global,
    text: &mut Vec<u8>,
    model: &FlowModel,
    lines: &mut AllLines,
) -> Result<Vec<PlanCell>, Fault>
    requires { HasSize model.now.grid }
    ensures { Gives (λ v. v.items) result lines.new (plan_cells_at model.now lines.old) }
{
    let mut cells = Vec::new(alloc);
    for cell in 0..model.grid.cell_count() {
        let pairs = read_cell(text, model, cell, lines)?;
        cells.push(pairs)?;
    }
    Ok(cells)
}

// The terms in the order of a budget, with zeros for those that have no line.
#[tactic(auto, unfolding(crate::specs::Reading::sources_at, record_lines::specs::Reading::for_each))]
fn read_sources(
    text: &mut Vec<u8>,
    grid: &Grid,
    evt: bool,
    s: u32,
    lines: &mut AllLines,
) -> Result<[TermPair; 8], Fault>
    requires size { HasSize grid.now }
    requires digits { s ≤ 18 }
    ensures { Gives (λ p. p) result lines.new (sources_at evt s lines.old) }
{
    let none = TermPair { lo: 0, hi: 0 };
    let storage = read_row(text, grid, Row::Source(s, Term::Storage), lines)?;
    let constant = read_row(text, grid, Row::Source(s, Term::ConstantHead), lines)?;
    let drains = read_row(text, grid, Row::Source(s, Term::Drains), lines)?;
    let rivers = read_row(text, grid, Row::Source(s, Term::RiverLeakage), lines)?;
    let general = read_row(text, grid, Row::Source(s, Term::HeadDepBounds), lines)?;
    let et = read_row_if(text, grid, evt, Row::Source(s, Term::Et), lines)?;
    Ok([storage, constant, none, drains, rivers, general, none, et])
}

fn base_of(alloc: Global, cells: &[PlanCell]) -> Result<Vec<Bound>, AllocError>
    ensures { IfOk result (λ v. v.items ≡ map (λ x. x.base) cells.now) }
{
    cells.iter().map(|x| x.base).collect(alloc)
}

fn planned_of(alloc: Global, cells: &[PlanCell]) -> Result<Vec<Bound>, AllocError>
    ensures { IfOk result (λ v. v.items ≡ map (λ x. x.planned) cells.now) }
{
    cells.iter().map(|x| x.planned).collect(alloc)
}

fn differences_of(alloc: Global, cells: &[PlanCell]) -> Result<Vec<Bound>, AllocError>
    ensures { IfOk result (λ v. v.items ≡ map (λ x. x.difference) cells.now) }
{
    cells.iter().map(|x| x.difference).collect(alloc)
}

/// A step with flows between these pairs of zones, or the first line of another form than the one due.
#[tactic(auto, unfolding(crate::specs::Reading::plan_step_with))]
pub(crate) fn read_step(
    alloc: Global,
    text: &mut Vec<u8>,
    model: &FlowModel,
    s: u32,
    pairs: &[ZonePair],
    at: TimeStep,
    lines: &mut AllLines,
) -> Result<ListedPlanStep, Fault>
    requires size { HasSize model.now.grid }
    requires digits { s ≤ 18 }
    ensures { Gives (λ x. x) result lines.new (plan_step_with model.now s pairs.now at lines.old) }
{
    read_title(text, at, lines)?;
    let cells = read_cells(alloc, text, model, lines)?;
    let terms = read_sources(text, &model.grid, has_evt(model), s, lines)?;
    let zones = read_flows(alloc, text, &model.grid, s, pairs, lines)?;
    let base = base_of(alloc, cells.as_slice())?;
    let planned = planned_of(alloc, cells.as_slice())?;
    let differences = differences_of(alloc, cells.as_slice())?;
    Ok(ListedPlanStep {
        at,
        base: Listed::new(base),
        planned: Listed::new(planned),
        differences: Listed::new(differences),
        flows: PlanFlows {
            sources: Sources { terms },
            zones: Listed::new(zones),
        },
    })
}
