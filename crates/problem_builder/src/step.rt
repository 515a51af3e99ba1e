// The tables of a single time step, besides those of its period.
ghost use Rattle.std.specs.Prelude.{ℕ, Contains, IfOk};
ghost use Rattle.model_types.specs.{times, IsModel};
ghost use Rattle.problem_builder.specs.{ArePeriodTables, AreStepTables};

use crate::heads::constant_heads;
use crate::index::PeriodTables;
use crate::storages::factors_of;
use conductance_bounds::Factors;
use model_types::{FlowModel, Listed, TimeStep};
use std::alloc::{AllocError, Global};
use step_problem::Bound;

/// The data that depend on a single time step: the factors of its length, unless its period is steady, and for each
/// cell the bounds of its head if that is constant, in units of 10^-9, and zeros in any other cell.
#[derive(Drop)]
pub struct StepTables {
    pub factors: Option<Factors>,
    pub heads: Listed<Bound>,
}

impl StepTables {
    /// The tables of a time, from those of its stress period.
    pub fn new(
        alloc: Global,
        model: &FlowModel,
        period: &PeriodTables,
        at: TimeStep,
    ) -> Result<StepTables, AllocError>
        requires model { IsModel model.now }
        requires time { Contains (times model.now) at }
        requires period { (s : ℕ) × ArePeriodTables model.now s at.period period.now }
        ensures { IfOk result (AreStepTables model.now at) }
    {
        let heads = constant_heads(alloc, model, period, at)?;
        Ok(StepTables {
            factors: factors_of(model, at),
            heads: Listed::new(heads),
        })
    }
}
