// The heads of constant-head cells at a time.
ghost use Rattle.std.specs.Prelude.{◌≡◌, ℕ, ◌<◌, true, IfOk};
ghost use Rattle.model_types.specs.{cell_count, is_constant, IsModel};
ghost use Rattle.problem_builder.specs.{constant_bound, known_bound, AreConstantHeads, IsTimeOf, IsPartOf, ArePeriodTables};

use crate::index::PeriodTables;
use crate::periods::stress_period;
use crate::start::{NO_HEADS, bound_of};
use conductance_bounds::{Part, given_head, time_part};
use model_types::{FlowModel, Kind, TimeStep};
use std::alloc::{AllocError, Global};
use step_problem::Bound;

// The bounds of the head of a constant-head cell, where `part` of the period has passed.
fn head_at(model: &FlowModel, period: &PeriodTables, at: TimeStep, part: Part, cell: u32) -> Bound
    requires model { IsModel model.now }
    requires time { IsTimeOf model.now at }
    requires period { (s : ℕ) × ArePeriodTables model.now s at.period period.now }
    requires part { IsPartOf model.now at part }
    requires cell { cell < cell_count model.now.grid }
    requires constant { is_constant model.now at.period cell ≡ true }
    ensures { result ≡ constant_bound model.now at cell }
{
    let _model = model;
    match period.given.at(cell) {
        Some(x) => bound_of(given_head(x.shead, x.ehead, part)),
        None => period.kept_pair_at(cell),
    }
}

// The bounds of a cell's head if that is constant, and zeros in any other cell.
fn head_of(model: &FlowModel, period: &PeriodTables, at: TimeStep, part: Part, cell: u32) -> Bound
    requires model { IsModel model.now }
    requires time { IsTimeOf model.now at }
    requires period { (s : ℕ) × ArePeriodTables model.now s at.period period.now }
    requires part { IsPartOf model.now at part }
    requires cell { cell < cell_count model.now.grid }
    ensures { result ≡ known_bound model.now at cell }
{
    match period.kind_at(cell) {
        Kind::Constant => head_at(model, period, at, part, cell),
        Kind::Variable => NO_HEADS,
        Kind::NoFlow => NO_HEADS,
    }
}

/// For each cell the bounds of its head if that is constant, and zeros in any other cell.
pub fn constant_heads(
    alloc: Global,
    model: &FlowModel,
    period: &PeriodTables,
    at: TimeStep,
) -> Result<Vec<Bound>, AllocError>
    requires model { IsModel model.now }
    requires time { IsTimeOf model.now at }
    requires period { (s : ℕ) × ArePeriodTables model.now s at.period period.now }
    ensures { IfOk result (λ v. AreConstantHeads model.now at v.items) }
{
    let part = time_part(stress_period(model, at.period), at.step);
    let mut bounds = Vec::new(alloc);
    let count = model.grid.cell_count();
    for cell in 0..count {
        bounds.push(head_of(model, period, at, part, cell))?;
    }
    Ok(bounds)
}
