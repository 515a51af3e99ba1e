// The bounds of the conductances that stand for a cell's storage in a step of a transient period.
ghost use Rattle.std.specs.Prelude.{◌≡◌, ◌<◌, ◌≤◌, ◌↔◌, ◌^◌, ℕ, Contains, IsTrue, false, length, true};
ghost use Rattle.decimal_input.specs.{size};
ghost use Rattle.conductance_bounds.specs.{IsUsable, factors_of as step_factors};
ghost use Rattle.model_types.specs.{IsModel, cell_count, is_active, period_at, times};
ghost use Rattle.problem_builder.specs.{AreStepTables, AreTables, IsTimeOf, storage_pair};
ghost use Rattle.water_storage.specs.{ArePairs, yield_pair};
ghost use Rattle.water_table.specs.{with_yield};

use conductance_bounds::{Factors, Pair, storage_branch};
use model_types::layers::dec_at;
use model_types::{FlowModel, TimeStep};
use problem_builder::periods::stress_period;
use problem_builder::start::capped_pair;
use problem_builder::storages::storage_at;
use problem_builder::{StepTables, Tables};
use water_table::ConvertibleLayers;

/// Below the top of a convertible cell, and above it.
#[derive(Clone, Copy)]
pub(crate) struct StoragePairs {
    pub drained: Pair,
    pub compressed: Pair,
}

// The pair of SY, in each step of a transient period that has these factors.
fn yield_at(
    model: &FlowModel,
    layers: &ConvertibleLayers,
    number: u32,
    factors: &Factors,
    cell: u32,
    s: u32,
) -> Pair
    requires model { IsModel model.now }
    requires yields { IsModel (with_yield model.now layers.now) }
    requires number { (1 ≤ number) × (number ≤ length model.now.periods) }
    requires transient { (period_at model.now number).steady ≡ false }
    requires digits { s ≤ 18 }
    requires factors { IsUsable factors.now }
    requires cell { cell < cell_count model.now.grid }
    requires active { is_active model.now cell ≡ true }
    ensures { (n : ℕ) → factors.now ≡ step_factors (size (period_at model.now number).tsmult) (period_at model.now number).nstp n →
        result ≡ yield_pair model.now layers.now s (record { period = number; step = n }) cell }
{
    let period = stress_period(model, number);
    let sy = dec_at(layers.sy.as_slice(), cell);
    let delr = model.delr_at(cell);
    let delc = model.delc_at(cell);
    let perlen = period.perlen;
    capped_pair(storage_branch(sy, None, delr, delc, factors, perlen, s))
}

/// Both pairs of an active cell, by the factors of the step.
pub(crate) fn pairs_of(
    model: &FlowModel,
    layers: &ConvertibleLayers,
    tables: &Tables,
    factors: &Factors,
    at: TimeStep,
    cell: u32,
) -> StoragePairs
    requires model { IsModel model.now }
    requires yields { IsModel (with_yield model.now layers.now) }
    requires time { IsTimeOf model.now at }
    requires digits { tables.now.digits ≤ 18 }
    requires tables { AreTables model.now tables.now.digits tables.now }
    requires transient { (period_at model.now at.period).steady ≡ false }
    requires grown { factors.now ≡ step_factors (size (period_at model.now at.period).tsmult) (period_at model.now at.period).nstp at.step }
    requires usable { IsUsable factors.now }
    requires cell { cell < cell_count model.now.grid }
    requires active { is_active model.now cell ≡ true }
    ensures drained { result.drained ≡ yield_pair model.now layers.now tables.now.digits at cell }
    ensures compressed { result.compressed ≡ storage_pair model.now tables.now.digits at cell }
{
    StoragePairs {
        drained: yield_at(model, layers, at.period, factors, cell, tables.digits),
        compressed: storage_at(model, tables, at.period, factors, cell),
    }
}

/// What a pair must stay below, in units of 10^-s.
const LIMIT: u64 = 1 << 60;

fn are_small(pairs: StoragePairs) -> bool
    ensures { IsTrue result ↔ ((pairs.drained.hi < 2 ^ 60) × (pairs.compressed.hi < 2 ^ 60)) }
{
    pairs.drained.hi < LIMIT && pairs.compressed.hi < LIMIT
}

/// Whether both pairs of an active cell are below 2^60 units, in a transient period.
pub fn storage_fits(
    model: &FlowModel,
    layers: &ConvertibleLayers,
    tables: &Tables,
    step: &StepTables,
    at: TimeStep,
    cell: u32,
) -> bool
    requires model { IsModel model.now }
    requires yields { IsModel (with_yield model.now layers.now) }
    requires time { Contains (times model.now) at }
    requires digits { tables.now.digits ≤ 18 }
    requires tables { AreTables model.now tables.now.digits tables.now }
    requires step { AreStepTables model.now at step.now }
    requires cell { cell < cell_count model.now.grid }
    requires active { is_active model.now cell ≡ true }
    ensures { IsTrue result ↔ ArePairs model.now layers.now tables.now.digits at cell }
{
    match &step.factors {
        None => true,
        Some(factors) => are_small(pairs_of(model, layers, tables, factors, at, cell)),
    }
}
