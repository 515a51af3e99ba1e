// The deep flow of a cell, and the flow that a cell adds to the lack or the surplus.
ghost use Rattle.std.specs.Prelude.{◌≡◌, ◌≤◌, ◌^◌};
ghost use Rattle.step_problem.specs.{IsMagnitudeAtMost, CellFits};
ghost use Rattle.cell_balance.specs.{deep_low};
ghost use Rattle.decimal_input.specs.{down, up};
ghost use Rattle.barrier_vector.specs.{high_flow, need_on};

use step_problem::problem::HEAD_LIMIT;
use step_problem::{Cell, Side, sum_branches, sum_of};

/// The least deep flow of a cell. A river gives its deep flow at the least head, which is below all bottoms, and an
/// evaporation takes its full rate at the greatest one.
pub(crate) fn deep_flow(cell: &Cell) -> i128
    requires { CellFits cell.now }
    ensures value { result ≡ deep_low cell.now }
    ensures within { IsMagnitudeAtMost result (2 ^ 125) }
{
    let flows = sum_branches(Side::Low, HEAD_LIMIT, &cell.flows);
    let rivers = sum_branches(Side::Low, -HEAD_LIMIT, &cell.rivers);
    let evaps = sum_branches(Side::Low, HEAD_LIMIT, &cell.evaps);
    sum_of(flows, rivers, evaps)
}

fn negative_of(flow: i128) -> u128
    requires { IsMagnitudeAtMost flow (2 ^ 125) }
    ensures { result ≡ down flow }
{
    if flow < 0 { flow.unsigned_abs() } else { 0 }
}

fn positive_of(flow: i128) -> u128
    requires { IsMagnitudeAtMost flow (2 ^ 125) }
    ensures { result ≡ up flow }
{
    if flow > 0 { flow.unsigned_abs() } else { 0 }
}

// The greatest sum of a cell's constant flows.
fn high_flow(cell: &Cell) -> i128
    requires { CellFits cell.now }
    ensures value { result ≡ high_flow cell.now }
    ensures within { IsMagnitudeAtMost result (2 ^ 125) }
{
    sum_branches(Side::High, HEAD_LIMIT, &cell.flows)
}

/// The flow that a cell adds to the greatest flow of a side: the negative part of its deep flow on the low side,
/// the positive part of its greatest constant flow on the high side.
pub(crate) fn need_of(side: Side, cell: &Cell) -> u128
    requires { CellFits cell.now }
    ensures value { result ≡ need_on side cell.now }
    ensures small { result ≤ 2 ^ 125 }
{
    match side {
        Side::Low => negative_of(deep_flow(cell)),
        Side::High => positive_of(high_flow(cell)),
    }
}
