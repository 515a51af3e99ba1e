// A cell of a step's problem.
ghost use Rattle.std.specs.Prelude.{◌≡◌, IfOk, map};
ghost use Rattle.std.specs.Option.{option_map};
ghost use Rattle.model_types.specs.{flow_sources, evap_sources, recharge_at, Received};
ghost use Rattle.problem_builder.specs.{fixed_over, sources_over, whole_flow, whole_evap, cell_over, IsVariableCell, AreInputs, branches_of};

use crate::branches::{constant_flow, constants, links, push_some};
use crate::input::StepInput;
use crate::stored::stored_branch;
use std::alloc::{AllocError, Global};
use step_problem::{Cell, Evap, Fixed, Flow, FlowKind};

fn fixed_branches(alloc: Global, input: &StepInput, cell: u32) -> Result<Vec<Fixed>, AllocError>
    requires input { AreInputs input.now }
    requires cell { IsVariableCell input.now cell }
    ensures { IfOk result (λ v. v.items ≡ map
        (fixed_over input.now.model input.now.tables.digits input.now.at input.now.old (branches_of input.now) cell)
        (sources_over input.now.model input.now.tables.digits input.now.at input.now.old (branches_of input.now) cell)) }
{
    let stored = stored_branch(input, cell);
    let constants = constants(alloc, input, cell)?;
    let entries = input.entries(cell);
    let count = usize::from(stored.is_some()) + constants.len() + entries.generals.len();
    let mut fixed = Vec::with_capacity(alloc, count)?;
    push_some(&mut fixed, stored)?;
    fixed.extend_from_slice(&constants)?;
    fixed.extend_from_slice(entries.generals)?;
    Ok(fixed)
}

// The recharge that the cell receives.
fn received_flow(input: &StepInput, cell: u32) -> Option<Flow>
    requires input { AreInputs input.now }
    requires cell { IsVariableCell input.now cell }
    ensures { result ≡ option_map (λ rate. whole_flow input.now.model input.now.tables.digits cell (Received rate))
        (recharge_at input.now.model input.now.at.period cell) }
{
    match input.period.recharge.at(cell) {
        Some(pair) => Some(constant_flow(FlowKind::Recharge, pair)),
        None => None,
    }
}

fn flows(alloc: Global, input: &StepInput, cell: u32) -> Result<Vec<Flow>, AllocError>
    requires input { AreInputs input.now }
    requires cell { IsVariableCell input.now cell }
    ensures { IfOk result (λ v. v.items ≡ map (whole_flow input.now.model input.now.tables.digits cell)
        (flow_sources input.now.model input.now.at.period cell)) }
{
    let received = received_flow(input, cell);
    let entries = input.entries(cell);
    let mut flows = Vec::with_capacity(
        alloc,
        usize::from(received.is_some()) + entries.wells.len(),
    )?;
    push_some(&mut flows, received)?;
    flows.extend_from_slice(entries.wells)?;
    Ok(flows)
}

fn evaps(alloc: Global, input: &StepInput, cell: u32) -> Result<Vec<Evap>, AllocError>
    requires input { AreInputs input.now }
    requires cell { IsVariableCell input.now cell }
    ensures { IfOk result (λ v. v.items ≡ map (whole_evap input.now.model input.now.tables.digits cell)
        (evap_sources input.now.model input.now.at.period cell)) }
{
    let mut evaps = Vec::new(alloc);
    push_some(&mut evaps, input.period.evaps.at(cell))?;
    Ok(evaps)
}

/// The problem's cell of a variable cell's number.
pub fn cell(alloc: Global, input: &StepInput, number: u32) -> Result<Cell, AllocError>
    requires input { AreInputs input.now }
    requires cell { IsVariableCell input.now number }
    ensures { IfOk result (λ e. e ≡ cell_over input.now.model input.now.tables.digits input.now.at input.now.old (branches_of input.now) number) }
{
    let entries = input.entries(number);
    Ok(Cell {
        id: number,
        flows: flows(alloc, input, number)?,
        links: links(alloc, input, number)?,
        fixed: fixed_branches(alloc, input, number)?,
        rivers: Vec::from_slice(alloc, entries.rivers)?,
        drains: Vec::from_slice(alloc, entries.drains)?,
        evaps: evaps(alloc, input, number)?,
    })
}
