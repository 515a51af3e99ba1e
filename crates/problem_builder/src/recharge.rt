// Recharge, by cell.
ghost use Rattle.std.specs.Prelude.{◌≡◌, ◌<◌, ◌≤◌, IfOk, IfSome, None, length};
ghost use Rattle.decimal_input.specs.{IsDec};
ghost use Rattle.model_types.specs.{cell_count, recharge_at, IsModel};
ghost use Rattle.problem_builder.specs.{Filled, IsRecharged, recharge_pair};

use crate::chosen::is_chosen;
use crate::periods::stress_period;
use crate::start::capped_flow;
use conductance_bounds::{FlowPair, recharge_flow};
use decimal_input::dec::Dec;
use model_types::layers::dec_at;
use model_types::{FlowModel, Optional};
use std::alloc::{AllocError, Global};

// The bounds of recharge at a rate.
fn recharge_pair(model: &FlowModel, rate: Dec, cell: u32, s: u32) -> FlowPair
    requires model { IsModel model.now }
    requires rate { IsDec rate }
    requires digits { s ≤ 18 }
    ensures { result ≡ recharge_pair model.now s cell rate }
{
    capped_flow(recharge_flow(rate, model.delr_at(cell), model.delc_at(cell), s))
}

// The rate of recharge that a cell receives in the period of this number.
fn rate_of(model: &FlowModel, number: u32, cell: u32) -> Option<Dec>
    requires model { IsModel model.now }
    requires number { (1 ≤ number) × (number ≤ length model.now.periods) }
    requires cell { cell < cell_count model.now.grid }
    ensures is { result ≡ recharge_at model.now number cell }
    ensures decimal { IfSome result IsDec }
{
    let period = stress_period(model, number);
    let layers = period.stresses.irch.as_slice();
    if is_chosen(model, model.nrchop, layers, cell) {
        let place = cell % model.grid.layer_size();
        Some(dec_at(period.stresses.recharge.as_slice(), place))
    } else {
        None
    }
}

fn recharge_of(model: &FlowModel, number: u32, cell: u32, s: u32) -> Option<FlowPair>
    requires model { IsModel model.now }
    requires number { (1 ≤ number) × (number ≤ length model.now.periods) }
    requires cell { cell < cell_count model.now.grid }
    requires digits { s ≤ 18 }
    ensures { IsRecharged model.now s number cell result }
{
    match rate_of(model, number, cell) {
        Some(rate) => Some(recharge_pair(model, rate, cell, s)),
        None => None,
    }
}

/// For each cell the recharge that it receives in the period of this number.
pub fn recharges(
    alloc: Global,
    model: &FlowModel,
    number: u32,
    s: u32,
) -> Result<Optional<FlowPair>, AllocError>
    requires model { IsModel model.now }
    requires number { (1 ≤ number) × (number ≤ length model.now.periods) }
    requires digits { s ≤ 18 }
    ensures { IfOk result (Filled (IsRecharged model.now s number) None (cell_count model.now.grid)) }
{
    let mut pairs = Optional::none(alloc, 0);
    let count = model.grid.cell_count();
    for cell in 0..count {
        pairs.push(recharge_of(model, number, cell, s))?;
    }
    Ok(pairs)
}
