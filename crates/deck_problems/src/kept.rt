// The tables that a run keeps from step to step.
ghost use Rattle.std.specs.Prelude.{◌≡◌, ◌≤◌, IfOk, OnOk, length};
ghost use Rattle.model_types.specs.{IsModel};
ghost use Rattle.deck_problems.specs.{AreRunTables, digits_of};

use model_types::{FlowModel, GivenHeads};
use problem_builder::{PeriodTables, Tables};
use std::alloc::{AllocError, Global};

/// The tables that all steps of a run share: the tables of the model, made once a run, those of the current stress
/// period, made once a period, and the given heads up to some period.
#[derive(Drop)]
pub struct RunTables {
    pub tables: Tables,
    pub given: GivenHeads,
    pub period: PeriodTables,
}

impl RunTables {
    /// The tables of a model with s digits of conductances, at its first period.
    pub fn new(alloc: Global, model: &FlowModel, s: u32) -> Result<RunTables, AllocError>
        requires model { IsModel model.now }
        requires digits { s ≤ 18 }
        ensures digits { IfOk result (λ t. digits_of t ≡ s) }
        ensures tables { IfOk result (AreRunTables model.now) }
    {
        let tables = Tables::new(alloc, model, s)?;
        let given = GivenHeads::new(alloc, model);
        let period = PeriodTables::new(alloc, model, &tables, &given)?;
        Ok(RunTables {
            tables,
            given,
            period,
        })
    }

    /// Moves to a stress period, if it isn't there. It continues from the current period, and starts anew before an
    /// earlier one.
    pub fn go_to(&mut self, alloc: Global, model: &FlowModel, period: u32) -> Result<(), AllocError>
        requires model { IsModel model.now }
        requires digits { digits_of self.old ≤ 18 }
        requires tables { AreRunTables model.now self.old }
        requires first { 1 ≤ period }
        requires last { period ≤ length model.now.periods }
        ensures digits { digits_of self.new ≡ digits_of self.old }
        ensures tables { AreRunTables model.now self.new }
        ensures there { OnOk result (self.new.period.period ≡ period) }
    {
        if self.period.period != period {
            self.given.advance_to(alloc, model, period - 1)?;
            self.period = PeriodTables::new(alloc, model, &self.tables, &self.given)?;
        }
        Ok(())
    }
}
