// The reading of a step.
ghost use Rattle.std.specs.Prelude.{◌≤◌, ◌<◌};
ghost use Rattle.model_types.specs.{HasSize, is_active};
ghost use Rattle.record_lines.specs.{for_each};
ghost use Rattle.listing_io.specs.{cell_front, has_evt, step_line, Gives, ReadsOrStops, flow_at, head_if, heads_at, step_with, terms_at, text_at};

use crate::fault::Fault;
use crate::lines::AllLines;
use crate::listing::ListedStep;
use crate::pair_lines::{CellWord, Row, read_row, read_row_if};
use crate::places::{has_evt, push_time};
use budget_bounds::{Budget, TermPair};
use model_types::{FlowModel, Grid, Listed, TimeStep};
use std::alloc::Global;
use step_problem::{Bound, Dir, Term, ZoneFlow};
use zone_pairs::ZonePair;

/// The two numbers of a cell's line of this word, or zeros where the cell has no line. The text is used up.
pub fn read_bound(
    text: &mut Vec<u8>,
    model: &FlowModel,
    word: CellWord,
    cell: u32,
    lines: &mut AllLines,
) -> Result<Bound, Fault>
    requires { HasSize model.now.grid }
    ensures { Gives (λ b. b) result lines.new (head_if (is_active model.now cell) (cell_front word model.now.grid cell) lines.old) }
{
    let there = model.is_active(cell);
    let pair = read_row_if(text, &model.grid, there, Row::Cell(word, cell), lines)?;
    Ok(Bound {
        low: pair.lo as i64,
        high: pair.hi as i64,
    })
}

#[tactic(auto, unfolding(crate::specs::Reading::heads_at))]
fn read_heads(
    alloc: Global,
    text: &mut Vec<u8>,
    model: &FlowModel,
    lines: &mut AllLines,
) -> Result<Vec<Bound>, Fault>
    requires { HasSize model.now.grid }
    ensures { Gives (λ v. v.items) result lines.new (heads_at model.now lines.old) }
{
    let mut heads = Vec::new(alloc);
    for cell in 0..model.grid.cell_count() {
        let head = read_bound(text, model, CellWord::Head, cell, lines)?;
        heads.push(head)?;
    }
    Ok(heads)
}

#[tactic(auto, unfolding(crate::specs::Reading::terms_at, record_lines::specs::Reading::for_each))]
fn read_terms(
    text: &mut Vec<u8>,
    grid: &Grid,
    evt: bool,
    s: u32,
    dir: Dir,
    lines: &mut AllLines,
) -> Result<[TermPair; 8], Fault>
    requires size { HasSize grid.now }
    requires digits { s ≤ 18 }
    ensures { Gives (λ p. p) result lines.new (terms_at evt s dir lines.old) }
{
    let storage = read_row(text, grid, Row::Term(s, dir, Term::Storage), lines)?;
    let constant = read_row(text, grid, Row::Term(s, dir, Term::ConstantHead), lines)?;
    let wells = read_row(text, grid, Row::Term(s, dir, Term::Wells), lines)?;
    let drains = read_row(text, grid, Row::Term(s, dir, Term::Drains), lines)?;
    let rivers = read_row(text, grid, Row::Term(s, dir, Term::RiverLeakage), lines)?;
    let general = read_row(text, grid, Row::Term(s, dir, Term::HeadDepBounds), lines)?;
    let recharge = read_row(text, grid, Row::Term(s, dir, Term::Recharge), lines)?;
    let et = read_row_if(text, grid, evt, Row::Term(s, dir, Term::Et), lines)?;
    Ok([
        storage, constant, wells, drains, rivers, general, recharge, et,
    ])
}

/// Reads the line STEP of a time. The text is used up.
pub fn read_title(text: &mut Vec<u8>, at: TimeStep, lines: &mut AllLines) -> Result<(), Fault>
    ensures { ReadsOrStops result lines.new (text_at (step_line at) lines.old) }
{
    text.clear();
    push_time(text, b"STEP", at)?;
    lines.expect(text.as_slice())
}

// The flow between two zones.
#[tactic(auto, unfolding(crate::specs::Reading::flow_at))]
fn read_flow(
    text: &mut Vec<u8>,
    grid: &Grid,
    s: u32,
    pair: ZonePair,
    lines: &mut AllLines,
) -> Result<ZoneFlow, Fault>
    requires size { HasSize grid.now }
    requires digits { s ≤ 18 }
    ensures { Gives (λ v. v) result lines.new (flow_at s pair lines.old) }
{
    let flow = read_row(text, grid, Row::Zone(s, pair.from, pair.to), lines)?;
    Ok(ZoneFlow {
        from: pair.from,
        to: pair.to,
        lo: flow.lo,
        hi: flow.hi,
    })
}

/// The flows between these pairs of zones, each in a line. The text is used up.
pub fn read_flows(
    alloc: Global,
    text: &mut Vec<u8>,
    grid: &Grid,
    s: u32,
    pairs: &[ZonePair],
    lines: &mut AllLines,
) -> Result<Vec<ZoneFlow>, Fault>
    requires size { HasSize grid.now }
    requires digits { s ≤ 18 }
    ensures { Gives (λ v. v.items) result lines.new (for_each (flow_at s) pairs.now lines.old) }
{
    let mut flows = Vec::new(alloc);
    for pair in pairs {
        let flow = read_flow(text, grid, s, *pair, lines)?;
        flows.push(flow)?;
    }
    Ok(flows)
}

/// A step with flows between these pairs of zones, or the first line of another form than the one due.
#[tactic(auto, unfolding(crate::specs::Reading::step_with))]
pub(crate) fn read_step(
    alloc: Global,
    text: &mut Vec<u8>,
    model: &FlowModel,
    s: u32,
    pairs: &[ZonePair],
    at: TimeStep,
    lines: &mut AllLines,
) -> Result<ListedStep, Fault>
    requires size { HasSize model.now.grid }
    requires digits { s ≤ 18 }
    ensures { Gives (λ x. x) result lines.new (step_with model.now s pairs.now at lines.old) }
{
    let evt = has_evt(model);
    read_title(text, at, lines)?;
    let heads = read_heads(alloc, text, model, lines)?;
    let into = read_terms(text, &model.grid, evt, s, Dir::In, lines)?;
    let out = read_terms(text, &model.grid, evt, s, Dir::Out, lines)?;
    let flows = read_flows(alloc, text, &model.grid, s, pairs, lines)?;
    Ok(ListedStep {
        heads: Listed::new(heads),
        budget: Budget { into, out },
        zones: Listed::new(flows),
    })
}
