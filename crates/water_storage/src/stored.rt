// The flow of stored water into a cell.
ghost use Rattle.std.specs.Prelude.{◌≡◌, ◌<◌, ◌≤◌, ◌^◌, Contains, cond, true};
ghost use Rattle.step_problem.specs.{IsHead, IsMagnitudeAtMost};
ghost use Rattle.model_types.specs.{IsModel, cell_count, is_active, times};
ghost use Rattle.problem_builder.specs.{AreStepTables, AreTables};
ghost use Rattle.water_table.specs.{is_convertible, with_yield};
ghost use Rattle.water_storage.specs.{ArePairs, IsSmallPair, crossing_of, fall_flow, stored_flow};

use crate::falls::{fall, greater_fall, lesser_fall};
use crate::pairs::{StoragePairs, pairs_of};
use crate::tops::top_of;
use model_types::{FlowModel, TimeStep};
use problem_builder::{StepTables, Tables};
use step_problem::{Bound, Side, branch_flow};
use water_conductances::spans::is_convertible;
use water_table::ConvertibleLayers;

// Where LAYTYP isn't 0: the flow below the top, and that above it.
fn crossing_flow(
    model: &FlowModel,
    pairs: StoragePairs,
    cell: u32,
    side: Side,
    old: Bound,
    new: Bound,
) -> i128
    requires model { IsModel model.now }
    requires cell { cell < cell_count model.now.grid }
    requires active { is_active model.now cell ≡ true }
    requires drained { IsSmallPair pairs.drained }
    requires compressed { IsSmallPair pairs.compressed }
    requires old { (IsHead old.low) × (IsHead old.high) }
    requires new { (IsHead new.low) × (IsHead new.high) }
    ensures value { result ≡ crossing_of model.now cell pairs.drained pairs.compressed side old new }
    ensures small { IsMagnitudeAtMost result (2 ^ 123) }
{
    let top = top_of(model, cell);
    let below = lesser_fall(side, old, new, top);
    let above = greater_fall(side, old, new, top);
    let drained = branch_flow(side, pairs.drained.lo, pairs.drained.hi, below);
    drained + branch_flow(side, pairs.compressed.lo, pairs.compressed.hi, above)
}

fn moving_flow(
    model: &FlowModel,
    layers: &ConvertibleLayers,
    pairs: StoragePairs,
    cell: u32,
    side: Side,
    old: Bound,
    new: Bound,
) -> i128
    requires model { IsModel model.now }
    requires cell { cell < cell_count model.now.grid }
    requires active { is_active model.now cell ≡ true }
    requires drained { IsSmallPair pairs.drained }
    requires compressed { IsSmallPair pairs.compressed }
    requires old { (IsHead old.low) × (IsHead old.high) }
    requires new { (IsHead new.low) × (IsHead new.high) }
    ensures value { result ≡ cond (is_convertible model.now layers.now cell) (crossing_of model.now cell pairs.drained pairs.compressed side old new)
        (fall_flow side pairs.compressed old new) }
    ensures small { IsMagnitudeAtMost result (2 ^ 123) }
{
    if is_convertible(model, layers, cell) {
        crossing_flow(model, pairs, cell, side, old, new)
    } else {
        branch_flow(
            side,
            pairs.compressed.lo,
            pairs.compressed.hi,
            fall(side, old, new),
        )
    }
}

/// The bound on a side of the flow of stored water into an active cell over a time step, in units of 10^-(s+9), between heads before and after it that are
/// known by bounds.
pub fn stored_flow(
    model: &FlowModel,
    layers: &ConvertibleLayers,
    tables: &Tables,
    step: &StepTables,
    at: TimeStep,
    cell: u32,
    side: Side,
    old: Bound,
    new: Bound,
) -> i128
    requires model { IsModel model.now }
    requires yields { IsModel (with_yield model.now layers.now) }
    requires time { Contains (times model.now) at }
    requires digits { tables.now.digits ≤ 18 }
    requires tables { AreTables model.now tables.now.digits tables.now }
    requires step { AreStepTables model.now at step.now }
    requires cell { cell < cell_count model.now.grid }
    requires active { is_active model.now cell ≡ true }
    requires pairs { ArePairs model.now layers.now tables.now.digits at cell }
    requires old { (IsHead old.low) × (IsHead old.high) }
    requires new { (IsHead new.low) × (IsHead new.high) }
    ensures value { result ≡ stored_flow model.now layers.now tables.now.digits at cell side old new }
    ensures small { IsMagnitudeAtMost result (2 ^ 123) }
{
    match &step.factors {
        None => 0,
        Some(factors) => {
            let pairs = pairs_of(model, layers, tables, factors, at, cell);
            moving_flow(model, layers, pairs, cell, side, old, new)
        }
    }
}
