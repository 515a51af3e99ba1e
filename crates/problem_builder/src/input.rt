// The data from which a step's cells are made.
ghost use Rattle.std.specs.Prelude.{◌≡◌, ◌<◌};
ghost use Rattle.model_types.specs.{cell_count, kind_of, is_variable, is_constant, index_of, period_at};
ghost use Rattle.problem_builder.specs.LocalBounds.{local_in};
ghost use Rattle.problem_builder.specs.Tables.{AreInputs, bound_at};

use crate::entries::CellEntries;
use crate::index::PeriodTables;
use crate::step::StepTables;
use crate::tables::{FacePairs, Tables};
use model_types::{FlowModel, Kind, TimeStep};
use std::marker::Model;
use step_problem::Bound;

/// A model, the tables of its run, of a period and of a step, the conductances of its faces, the step's time, and
/// the heads before it. Where `stored` is false, storage is left out.
#[derive(Drop)]
pub struct StepInput<'a> {
    pub model: &'a FlowModel,
    pub tables: &'a Tables,
    pub pairs: &'a FacePairs,
    pub stored: bool,
    pub period: &'a PeriodTables,
    pub step: &'a StepTables,
    pub at: TimeStep,
    pub old: &'a [Bound],
}

impl<'a> Model for StepInput<'a> {
    ghost use Rattle.problem_builder.specs.Tables.{Inputs};

    ghost Value = { Inputs };

    ghost view = { λ i. record {
      model = i.model.now;
      tables = i.tables.now;
      pairs = i.pairs.now;
      stored = i.stored;
      period = i.period.now;
      step = i.step.now;
      at = i.at;
      old = i.old.now;
    } };
}

impl<'a> StepInput<'a> {
    /// Whether the period is steady.
    pub fn is_steady(&self) -> bool
        requires { AreInputs self.now }
        ensures { result ≡ (period_at self.now.model self.now.at.period).steady }
    {
        self.period.steady
    }

    /// The bounds of the head of a constant-head cell.
    pub fn given_head(&self, cell: u32) -> Bound
        requires input { AreInputs self.now }
        requires cell { cell < cell_count self.now.model.grid }
        ensures { result ≡ bound_at self.now.step.heads cell }
    {
        self.step.heads.as_slice()[cell as usize]
    }

    /// The bounds of a cell's head before the step.
    pub fn old_head(&self, cell: u32) -> Bound
        requires input { AreInputs self.now }
        requires cell { cell < cell_count self.now.model.grid }
        ensures { result ≡ bound_at self.now.old cell }
    {
        self.old[cell as usize]
    }

    /// The bounds of a cell's entries of WEL, RIV, DRN and GHB.
    pub fn entries(&self, cell: u32) -> CellEntries<'_>
        requires input { AreInputs self.now }
        requires cell { cell < cell_count self.now.model.grid }
        ensures { result ≡ local_in self.now.period.local cell }
    {
        self.period.local.at(cell)
    }

    fn kind(&self, cell: u32) -> Kind
        requires input { AreInputs self.now }
        requires cell { cell < cell_count self.now.model.grid }
        ensures { result ≡ kind_of self.now.model self.now.at.period cell }
    {
        self.period.kinds.as_slice()[cell as usize]
    }

    /// Whether the cell's head is variable in the period.
    pub fn is_variable(&self, cell: u32) -> bool
        requires input { AreInputs self.now }
        requires cell { cell < cell_count self.now.model.grid }
        ensures { result ≡ is_variable self.now.model self.now.at.period cell }
    {
        match self.kind(cell) {
            Kind::Variable => true,
            Kind::Constant => false,
            Kind::NoFlow => false,
        }
    }

    /// Whether the cell's head is constant in the period.
    pub fn is_constant(&self, cell: u32) -> bool
        requires input { AreInputs self.now }
        requires cell { cell < cell_count self.now.model.grid }
        ensures { result ≡ is_constant self.now.model self.now.at.period cell }
    {
        match self.kind(cell) {
            Kind::Variable => false,
            Kind::Constant => true,
            Kind::NoFlow => false,
        }
    }

    /// The index of a variable cell.
    pub fn index(&self, cell: u32) -> u32
        requires input { AreInputs self.now }
        requires cell { cell < cell_count self.now.model.grid }
        ensures { result ≡ index_of self.now.model self.now.at.period cell }
    {
        self.period.index.as_slice()[cell as usize]
    }
}
