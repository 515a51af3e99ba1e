// The signs of the balances at the listed heads.
ghost use Rattle.std.specs.Prelude.{◌≡◌, ◌<◌, ◌≤◌, ◌↔◌, ◌^◌, ◌+ℤ◌, ℕ, Contains, IsTrue, MatchOption, length, map};
ghost use Rattle.step_problem.specs.declared.heads.Side.{Side};
ghost use Rattle.step_problem.specs.declared.heads.Side.TheVariants.{High, Low};
ghost use Rattle.step_problem.specs.{IsMagnitudeAtMost};
ghost use Rattle.cell_relax.specs.{AreWords, heads_on};
ghost use Rattle.model_types.specs.{IsModel, cell_count, times, variable_cells};
ghost use Rattle.problem_builder.specs.{AreGridHeads, AreStepTables, AreTables};
ghost use Rattle.water_table.specs.{with_yield};
ghost use Rattle.gentle_check.specs.{whole_balance};
ghost use Rattle.gentle_steps.specs.{ArePosed, HasSign, HasSignAt, HaveSigns, IsFirstWeak, IsWeak, StoredWaterFits, variable_bounds};

use crate::posed::Posed;
use crate::sides::one_head;
use cell_relax::{balance_in, head_on};
use model_types::{FlowModel, TimeStep};
use problem_builder::{StepTables, Tables};
use step_problem::{Bound, Problem, Side};
use water_storage::stored_flow;
use water_table::ConvertibleLayers;

// Whether the sum of a balance without storage and a flow of stored water has the sign of its side.
fn has_sign(side: Side, balance: i128, stored: i128) -> bool
    requires { IsMagnitudeAtMost stored (2 ^ 123) }
    ensures { IsTrue result ↔ HasSign side (balance +ℤ stored) }
{
    match side {
        Side::Low => balance >= 1 - stored,
        Side::High => balance <= -1 - stored,
    }
}

// The same at the problem's cell of an index. `bounds` are those of the problem's cells, `old` the heads of all cells before the step.
fn has_sign_at(
    model: &FlowModel,
    layers: &ConvertibleLayers,
    tables: &Tables,
    step: &StepTables,
    at: TimeStep,
    problem: &Problem,
    bounds: &[Bound],
    old: &[Bound],
    index: usize,
    side: Side,
) -> bool
    requires model { IsModel model.now }
    requires yields { IsModel (with_yield model.now layers.now) }
    requires time { Contains (times model.now) at }
    requires digits { tables.now.digits ≤ 18 }
    requires tables { AreTables model.now tables.now.digits tables.now }
    requires step { AreStepTables model.now at step.now }
    requires cells { map (λ e. e.id) problem.now ≡ variable_cells model.now at.period }
    requires bounds { AreWords problem.now bounds.now }
    requires old { AreGridHeads model.now old.now }
    requires stored { (c : ℕ) → c < cell_count model.now.grid → StoredWaterFits model.now layers.now tables.now.digits at c }
    requires index { index < length problem.now }
    ensures { IsTrue result ↔ HasSign side (whole_balance model.now layers.now tables.now.digits at side problem.now old.now (heads_on side bounds.now) index) }
{
    let cell = problem.cell(index).id;
    let before = old[cell as usize];
    let head = head_on(side, bounds[index]);
    let stored = stored_flow(
        model,
        layers,
        tables,
        step,
        at,
        cell,
        side,
        before,
        one_head(head),
    );
    has_sign(side, balance_in(problem, bounds, index, side), stored)
}

// The side on which the balance of a cell hasn't its sign, the lower one first.
fn weak_side(
    model: &FlowModel,
    layers: &ConvertibleLayers,
    tables: &Tables,
    step: &StepTables,
    at: TimeStep,
    posed: &Posed,
    bounds: &[Bound],
    old: &[Bound],
    listed: &[Bound],
    index: usize,
) -> Option<Side>
    requires model { IsModel model.now }
    requires yields { IsModel (with_yield model.now layers.now) }
    requires time { Contains (times model.now) at }
    requires digits { tables.now.digits ≤ 18 }
    requires tables { AreTables model.now tables.now.digits tables.now }
    requires step { AreStepTables model.now at step.now }
    requires posed { ArePosed model.now layers.now tables.now.digits at listed.now posed.now }
    requires bounds { bounds.now ≡ variable_bounds model.now at listed.now }
    requires words { AreWords posed.now.low bounds.now }
    requires old { AreGridHeads model.now old.now }
    requires index { index < length posed.now.low }
    ensures { MatchOption result
        ((side : Side) → HasSignAt model.now layers.now tables.now.digits at old.now listed.now posed.now.low posed.now.high index side)
        (IsWeak model.now layers.now tables.now.digits at old.now listed.now posed.now.low posed.now.high index) }
{
    let _listed = listed;
    if !has_sign_at(
        model,
        layers,
        tables,
        step,
        at,
        &posed.low,
        bounds,
        old,
        index,
        Side::Low,
    ) {
        Some(Side::Low)
    } else if !has_sign_at(
        model,
        layers,
        tables,
        step,
        at,
        &posed.high,
        bounds,
        old,
        index,
        Side::High,
    ) {
        Some(Side::High)
    } else {
        None
    }
}

/// The first variable cell, by its index, and the side on which its balance hasn't its sign. `bounds` are the listed bounds of the variable cells.
pub(crate) fn first_weak(
    model: &FlowModel,
    layers: &ConvertibleLayers,
    tables: &Tables,
    step: &StepTables,
    at: TimeStep,
    posed: &Posed,
    bounds: &[Bound],
    old: &[Bound],
    listed: &[Bound],
) -> Option<(usize, Side)>
    requires model { IsModel model.now }
    requires yields { IsModel (with_yield model.now layers.now) }
    requires time { Contains (times model.now) at }
    requires digits { tables.now.digits ≤ 18 }
    requires tables { AreTables model.now tables.now.digits tables.now }
    requires step { AreStepTables model.now at step.now }
    requires posed { ArePosed model.now layers.now tables.now.digits at listed.now posed.now }
    requires bounds { bounds.now ≡ variable_bounds model.now at listed.now }
    requires words { AreWords posed.now.low bounds.now }
    requires old { AreGridHeads model.now old.now }
    ensures { MatchOption result
        (HaveSigns model.now layers.now tables.now.digits at old.now listed.now posed.now.low posed.now.high)
        (λ f. IsFirstWeak model.now layers.now tables.now.digits at old.now listed.now posed.now.low posed.now.high f.0 f.1) }
{
    for index in 0..posed.low.len() {
        if let Some(side) = weak_side(
            model, layers, tables, step, at, posed, bounds, old, listed, index,
        ) {
            return Some((index, side));
        }
    }
    None
}
