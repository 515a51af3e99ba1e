// Evapotranspiration, by cell.
ghost use Rattle.std.specs.Prelude.{◌≡◌, ◌<◌, ◌≤◌, IfOk, None, length};
ghost use Rattle.decimal_input.specs.{number};
ghost use Rattle.model_types.specs.{cell_count, is_active, evaporates, evap_source, IsModel, IsEvapValid};
ghost use Rattle.problem_builder.specs.{whole_evap, IsEvaporated, Filled};

use crate::chosen::is_chosen;
use crate::periods::stress_period;
use crate::start::{capped_pair, depth_pair, head_pair};
use conductance_bounds::evap_branch;
use decimal_input::dec::Dec;
use model_types::layers::dec_at;
use model_types::{FlowModel, Optional};
use std::alloc::{AllocError, Global};
use step_problem::Evap;

// An evapotranspiration by the bounds of its conductance, its surface and its depth.
fn evap_pair(model: &FlowModel, rate: Dec, surface: Dec, depth: Dec, cell: u32, s: u32) -> Evap
    requires model { IsModel model.now }
    requires source { IsEvapValid (record { rate = rate; surface = surface; depth = depth }) }
    requires digits { s ≤ 18 }
    ensures { result ≡ whole_evap model.now s cell (record { rate = rate; surface = surface; depth = depth }) }
{
    let pair = capped_pair(evap_branch(rate, depth, model.delr_at(cell), model.delc_at(cell), s));
    let surface = head_pair(surface);
    let depth = depth_pair(depth);
    Evap {
        lo: pair.lo,
        hi: pair.hi,
        ext_lo: surface.low - depth.high,
        ext_hi: surface.high - depth.low,
        surf_lo: surface.low,
        surf_hi: surface.high,
    }
}

// The evapotranspiration of an active cell that evaporates in the period of this number.
fn evap_at(model: &FlowModel, number: u32, cell: u32, s: u32) -> Evap
    requires model { IsModel model.now }
    requires number { (1 ≤ number) × (number ≤ length model.now.periods) }
    requires source { IsEvapValid (evap_source model.now number cell) }
    requires digits { s ≤ 18 }
    ensures { result ≡ whole_evap model.now s cell (evap_source model.now number cell) }
{
    let period = stress_period(model, number);
    let place = cell % model.grid.layer_size();
    let rate = dec_at(period.stresses.evtr.as_slice(), place);
    let surface = dec_at(period.stresses.surf.as_slice(), place);
    let depth = dec_at(period.stresses.exdp.as_slice(), place);
    evap_pair(model, rate, surface, depth, cell, s)
}

fn evaporates(model: &FlowModel, number: u32, cell: u32) -> bool
    requires model { IsModel model.now }
    requires number { (1 ≤ number) × (number ≤ length model.now.periods) }
    requires cell { cell < cell_count model.now.grid }
    ensures { result ≡ evaporates model.now number cell }
{
    let period = stress_period(model, number);
    let layers = period.stresses.ievt.as_slice();
    let chosen = is_chosen(model, model.nevtop, layers, cell);
    let place = cell % model.grid.layer_size();
    let rate = dec_at(period.stresses.evtr.as_slice(), place);
    chosen && rate.digits != 0
}

fn evap_of(model: &FlowModel, number: u32, cell: u32, s: u32) -> Option<Evap>
    requires model { IsModel model.now }
    requires number { (1 ≤ number) × (number ≤ length model.now.periods) }
    requires cell { cell < cell_count model.now.grid }
    requires digits { s ≤ 18 }
    ensures { IsEvaporated model.now s number cell result }
{
    if !model.is_active(cell) {
        return None;
    }
    if !evaporates(model, number, cell) {
        return None;
    }
    Some(evap_at(model, number, cell, s))
}

/// For each cell its evapotranspiration in the period of this number, if it is active and evaporates.
pub fn evaps(
    alloc: Global,
    model: &FlowModel,
    number: u32,
    s: u32,
) -> Result<Optional<Evap>, AllocError>
    requires model { IsModel model.now }
    requires number { (1 ≤ number) × (number ≤ length model.now.periods) }
    requires digits { s ≤ 18 }
    ensures { IfOk result (Filled (IsEvaporated model.now s number) None (cell_count model.now.grid)) }
{
    let mut evaps = Optional::none(alloc, 0);
    let count = model.grid.cell_count();
    for cell in 0..count {
        evaps.push(evap_of(model, number, cell, s))?;
    }
    Ok(evaps)
}
