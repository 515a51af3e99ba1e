// The tables of the stress period at hand.
ghost use Rattle.std.specs.Prelude.{◌≡◌, ◌≤◌, IfOk, length};
ghost use Rattle.model_types.specs.{IsModel};
ghost use Rattle.problem_builder.specs.{AreTables};
ghost use Rattle.gentle_run.specs.{AreTablesOfPeriod};

use model_types::FlowModel;
use problem_builder::{PeriodTables, Tables};
use std::alloc::{AllocError, Global};

/// The tables of a stress period: those at hand, if they are its own.
pub(crate) fn tables_of(
    alloc: Global,
    model: &FlowModel,
    tables: &Tables,
    kept: PeriodTables,
    period: u32,
) -> Result<PeriodTables, AllocError>
    requires model { IsModel model.now }
    requires digits { tables.now.digits ≤ 18 }
    requires tables { AreTables model.now tables.now.digits tables.now }
    requires kept { AreTablesOfPeriod model.now tables.now.digits kept }
    requires period { (1 ≤ period) × (period ≤ length model.now.periods) }
    ensures { IfOk result (λ t. AreTablesOfPeriod model.now tables.now.digits t × (t.period ≡ period)) }
{
    if kept.period == period {
        return Ok(kept);
    }
    PeriodTables::at(alloc, model, tables, period)
}
