// Whether the pairs of stored water fit.
ghost use Rattle.std.specs.Prelude.{◌≡◌, ◌<◌, ◌≤◌, ◌↔◌, ℕ, Contains, IsTrue, MatchOption};
ghost use Rattle.model_types.specs.{IsModel, cell_count, times};
ghost use Rattle.problem_builder.specs.{ArePeriodTables, AreStepTables, AreTables};
ghost use Rattle.water_table.specs.{with_yield};
ghost use Rattle.gentle_steps.specs.{IsFirstLarge, StoredWaterFits};

use crate::table::is_variable;
use model_types::{FlowModel, TimeStep};
use problem_builder::{PeriodTables, StepTables, Tables};
use water_storage::storage_fits;
use water_table::ConvertibleLayers;

fn fits(
    model: &FlowModel,
    layers: &ConvertibleLayers,
    tables: &Tables,
    period: &PeriodTables,
    step: &StepTables,
    at: TimeStep,
    cell: u32,
) -> bool
    requires model { IsModel model.now }
    requires yields { IsModel (with_yield model.now layers.now) }
    requires time { Contains (times model.now) at }
    requires digits { tables.now.digits ≤ 18 }
    requires tables { AreTables model.now tables.now.digits tables.now }
    requires period { (s : ℕ) × ArePeriodTables model.now s at.period period.now }
    requires step { AreStepTables model.now at step.now }
    requires cell { cell < cell_count model.now.grid }
    ensures { IsTrue result ↔ StoredWaterFits model.now layers.now tables.now.digits at cell }
{
    if is_variable(model, period, at, cell) {
        storage_fits(model, layers, tables, step, at, cell)
    } else {
        true
    }
}

/// The first variable cell with a pair of stored water that is too large.
pub(crate) fn first_large(
    model: &FlowModel,
    layers: &ConvertibleLayers,
    tables: &Tables,
    period: &PeriodTables,
    step: &StepTables,
    at: TimeStep,
) -> Option<u32>
    requires model { IsModel model.now }
    requires yields { IsModel (with_yield model.now layers.now) }
    requires time { Contains (times model.now) at }
    requires digits { tables.now.digits ≤ 18 }
    requires tables { AreTables model.now tables.now.digits tables.now }
    requires period { (s : ℕ) × ArePeriodTables model.now s at.period period.now }
    requires step { AreStepTables model.now at step.now }
    ensures { MatchOption result ((c : ℕ) → c < cell_count model.now.grid → StoredWaterFits model.now layers.now tables.now.digits at c)
        (IsFirstLarge model.now layers.now tables.now.digits at) }
{
    for cell in 0..model.grid.cell_count() {
        if !fits(model, layers, tables, period, step, at, cell) {
            return Some(cell);
        }
    }
    None
}
