// The kinds of cells.
ghost use Rattle.std.specs.Prelude.{◌≡◌, ◌<◌, ℕ};
ghost use Rattle.model_types.specs.{cell_count, is_constant, is_variable};
ghost use Rattle.problem_builder.specs.{ArePeriodTables};

use model_types::{FlowModel, Kind, TimeStep};
use problem_builder::PeriodTables;

pub(crate) fn is_variable(model: &FlowModel, period: &PeriodTables, at: TimeStep, cell: u32) -> bool
    requires period { (s : ℕ) × ArePeriodTables model.now s at.period period.now }
    requires cell { cell < cell_count model.now.grid }
    ensures { result ≡ is_variable model.now at.period cell }
{
    let _model = model;
    let _at = at;
    match period.kind_at(cell) {
        Kind::Variable => true,
        Kind::Constant => false,
        Kind::NoFlow => false,
    }
}

pub(crate) fn is_constant(model: &FlowModel, period: &PeriodTables, at: TimeStep, cell: u32) -> bool
    requires period { (s : ℕ) × ArePeriodTables model.now s at.period period.now }
    requires cell { cell < cell_count model.now.grid }
    ensures { result ≡ is_constant model.now at.period cell }
{
    let _model = model;
    let _at = at;
    match period.kind_at(cell) {
        Kind::Variable => false,
        Kind::Constant => true,
        Kind::NoFlow => false,
    }
}
