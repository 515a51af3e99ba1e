// The test, cell by cell. `heads` has one bound for each cell of the grid, `period` the tables of the step's stress period.
ghost use Rattle.std.specs.Prelude.{◌≡◌, ◌<◌, ◌↔◌, ℕ, IsTrue, MatchOption, All, true};
ghost use Rattle.decimal_input.specs.{number};
ghost use Rattle.cell_balance.specs.{IsBelow};
ghost use Rattle.model_types.specs.{cell_count, is_active, is_variable, bottom_at, faces, IsModel};
ghost use Rattle.problem_builder.specs.{AreGridHeads, ArePeriodTables};
ghost use Rattle.water_table.specs.{is_convertible};
ghost use Rattle.gentle_heads.specs.{AreGentleBetween, FallsThrough, IsFirstSteep, IsGentleAt, lower_head};

use crate::bottom::is_over_bottom;
use crate::branch::{falls, is_convertible, low_of};
use crate::compare::is_below;
use model_types::{FlowModel, Kind};
use problem_builder::PeriodTables;
use step_problem::Bound;
use water_table::ConvertibleLayers;

fn is_wet(model: &FlowModel, layers: &ConvertibleLayers, heads: &[Bound], c: u32) -> bool
    requires model { IsModel model.now }
    requires heads { AreGridHeads model.now heads.now }
    requires cell { c < cell_count model.now.grid }
    ensures { IsTrue result ↔ (is_convertible model.now layers.now c ≡ true → IsBelow (number (bottom_at model.now c)) (lower_head heads.now c)) }
{
    if is_convertible(model, layers, c) {
        is_below(model.bottom_at(c), low_of(heads, c))
    } else {
        true
    }
}

fn is_variable(model: &FlowModel, period: &PeriodTables, c: u32) -> bool
    requires period { (s : ℕ) × ArePeriodTables model.now s period.now.period period.now }
    requires cell { c < cell_count model.now.grid }
    ensures { result ≡ is_variable model.now period.now.period c }
{
    let _model = model;
    match period.kind_at(c) {
        Kind::Variable => true,
        Kind::Constant => false,
        Kind::NoFlow => false,
    }
}

// Whether all falls to a cell are gentle, if its head is variable.
fn falls_at(
    model: &FlowModel,
    layers: &ConvertibleLayers,
    period: &PeriodTables,
    heads: &[Bound],
    c: u32,
) -> bool
    requires model { IsModel model.now }
    requires period { (s : ℕ) × ArePeriodTables model.now s period.now.period period.now }
    requires heads { AreGridHeads model.now heads.now }
    requires cell { c < cell_count model.now.grid }
    ensures { IsTrue result ↔ (is_variable model.now period.now.period c ≡ true →
        All (FallsThrough model.now layers.now heads.now c) (faces model.now.grid c)) }
{
    if is_variable(model, period, c) {
        falls(model, layers, heads, c)
    } else {
        true
    }
}

fn all_three(a: bool, b: bool, c: bool) -> bool
    ensures { IsTrue result ↔ (IsTrue a × IsTrue b × IsTrue c) }
{
    a && b && c
}

fn is_gentle_at(
    model: &FlowModel,
    layers: &ConvertibleLayers,
    period: &PeriodTables,
    heads: &[Bound],
    c: u32,
) -> bool
    requires model { IsModel model.now }
    requires period { (s : ℕ) × ArePeriodTables model.now s period.now.period period.now }
    requires heads { AreGridHeads model.now heads.now }
    requires cell { c < cell_count model.now.grid }
    ensures { IsTrue result ↔ IsGentleAt model.now layers.now period.now.period heads.now c }
{
    let wet = is_wet(model, layers, heads, c);
    let falls = falls_at(model, layers, period, heads, c);
    let over = is_over_bottom(model, layers, heads, c);
    all_three(wet, falls, over)
}

// Whether a cell passes, as one without flow does.
fn passes(
    model: &FlowModel,
    layers: &ConvertibleLayers,
    period: &PeriodTables,
    heads: &[Bound],
    c: u32,
) -> bool
    requires model { IsModel model.now }
    requires period { (s : ℕ) × ArePeriodTables model.now s period.now.period period.now }
    requires heads { AreGridHeads model.now heads.now }
    requires cell { c < cell_count model.now.grid }
    ensures { IsTrue result ↔ (is_active model.now c ≡ true → IsGentleAt model.now layers.now period.now.period heads.now c) }
{
    if !model.is_active(c) {
        return true;
    }
    is_gentle_at(model, layers, period, heads, c)
}

/// The first active cell at which some heads between the listed ones aren't gentle by the test, or None where all are.
/// It takes no memory.
pub fn first_steep(
    model: &FlowModel,
    layers: &ConvertibleLayers,
    period: &PeriodTables,
    heads: &[Bound],
) -> Option<u32>
    requires model { IsModel model.now }
    requires period { (s : ℕ) × ArePeriodTables model.now s period.now.period period.now }
    requires heads { AreGridHeads model.now heads.now }
    ensures { MatchOption result (AreGentleBetween model.now layers.now period.now.period heads.now)
        (IsFirstSteep model.now layers.now period.now.period heads.now) }
{
    for cell in 0..model.grid.cell_count() {
        if !passes(model, layers, period, heads, cell) {
            return Some(cell);
        }
    }
    None
}
