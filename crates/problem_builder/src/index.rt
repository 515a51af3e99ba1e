// Kinds of cells, and the indices of the variable ones.
ghost use Rattle.std.specs.Prelude.{◌≡◌, ◌<◌, IfOk, ◌+◌, ◌≤◌, length, slice_index_or};
ghost use Rattle.model_types.specs.declared.given_heads.Kind.TheVariants.{NoFlow};
ghost use Rattle.model_types.specs.{cell_count, HasSize, is_variable, given_heads, IsModel};
ghost use Rattle.problem_builder.specs.{Filled, IsIndex, AreTables, ArePeriodTables, AreEvenStorages, bound_at};

use crate::evaporation::evaps;
use crate::given::{kept_heads, last_entries};
use crate::local::EntriesByCell;
use crate::periods::stress_period;
use crate::recharge::recharges;
use crate::storages::even_storages;
use crate::tables::Tables;
use conductance_bounds::{FlowPair, Pair};
use model_types::{FlowModel, Given, GivenHeads, Kind, Listed, Optional};
use std::alloc::{AllocError, Global};
use step_problem::{Bound, Evap};

fn is_variable(model: &FlowModel, given: &GivenHeads, cell: u32) -> bool
    requires given { given.now ≡ given_heads model.now given.now.period }
    requires cell { cell < cell_count model.now.grid }
    ensures { result ≡ is_variable model.now given.now.period cell }
{
    match given.kind(model, cell) {
        Kind::Variable => true,
        Kind::Constant => false,
        Kind::NoFlow => false,
    }
}

/// For each cell its index, if it is a variable cell.
pub fn indices(alloc: Global, model: &FlowModel, given: &GivenHeads) -> Result<Vec<u32>, AllocError>
    requires size { HasSize model.now.grid }
    requires given { given.now ≡ given_heads model.now given.now.period }
    ensures { IfOk result (λ v. Filled (IsIndex model.now given.now.period) 0 (cell_count model.now.grid) v.items) }
{
    let mut indices = Vec::new(alloc);
    let mut index: u32 = 0;
    let count = model.grid.cell_count();
    for cell in 0..count {
        indices.push(index)?;
        if is_variable(model, given, cell) {
            index += 1;
        }
    }
    Ok(indices)
}

// The tables that all time steps of a stress period share.

/// The data that depend on the stress period alone, by cell: its kind, its index if it is variable, what the period's
/// CHD list gives, the head that a constant-head cell keeps, the bounds of its entries, of the recharge that it
/// receives, in units of 10^-(s+9), and of its evapotranspiration; and where all steps are equally long, its storage.
pub struct PeriodTables {
    pub period: u32,
    pub steady: bool,
    pub kinds: Listed<Kind>,
    pub index: Listed<u32>,
    pub given: Optional<Given>,
    pub kept: Listed<Bound>,
    pub local: EntriesByCell,
    pub recharge: Optional<FlowPair>,
    pub evaps: Optional<Evap>,
    pub storage: Option<Listed<Pair>>,
}

impl Drop for PeriodTables {
    fn drop(self) {
        let PeriodTables {
            period: _,
            steady: _,
            kinds: _,
            index: _,
            given: _,
            kept: _,
            local: _,
            recharge: _,
            evaps: _,
            storage: _,
        } = self;
    }
}

impl PeriodTables {
    /// The tables of the stress period after `given`, with the digits of the run's tables.
    pub fn new(
        alloc: Global,
        model: &FlowModel,
        tables: &Tables,
        given: &GivenHeads,
    ) -> Result<PeriodTables, AllocError>
        requires model { IsModel model.now }
        requires digits { tables.now.digits ≤ 18 }
        requires tables { AreTables model.now tables.now.digits tables.now }
        requires given { given.now ≡ given_heads model.now given.now.period }
        requires period { given.now.period < length model.now.periods }
        ensures tables { IfOk result (ArePeriodTables model.now tables.now.digits (given.now.period + 1)) }
        ensures storage { IfOk result
            (λ t. AreEvenStorages model.now tables.now.digits (given.now.period + 1) t.storage) }
    {
        let s = tables.digits;
        let next = given.next(alloc, model)?;
        let number = next.period;
        let kinds = next.kinds(alloc, model)?;
        let index = indices(alloc, model, &next)?;
        drop(next);
        let kept = kept_heads(alloc, model, given)?;
        let period = stress_period(model, number);
        let count = model.grid.cell_count();
        let local = EntriesByCell::of_period(alloc, period, count, s)?;
        // From here on the lists that are made are dropped by one call.
        let mut made = PeriodTables {
            period: number,
            steady: period.steady,
            kinds: Listed::new(kinds),
            index: Listed::new(index),
            given: Optional::none(alloc, 0),
            kept: Listed::new(kept),
            local,
            recharge: Optional::none(alloc, 0),
            evaps: Optional::none(alloc, 0),
            storage: None,
        };
        made.given = last_entries(alloc, period.stresses.given.as_slice(), count)?;
        made.recharge = recharges(alloc, model, number, s)?;
        made.evaps = evaps(alloc, model, number, s)?;
        made.storage = even_storages(alloc, model, tables, made.kinds.as_slice(), number)?;
        Ok(made)
    }

    /// The tables of a stress period, counted from 1. It reads the CHD lists up to the period.
    pub fn at(
        alloc: Global,
        model: &FlowModel,
        tables: &Tables,
        period: u32,
    ) -> Result<PeriodTables, AllocError>
        requires model { IsModel model.now }
        requires digits { tables.now.digits ≤ 18 }
        requires tables { AreTables model.now tables.now.digits tables.now }
        requires period { (1 ≤ period) × (period ≤ length model.now.periods) }
        ensures tables { IfOk result (ArePeriodTables model.now tables.now.digits period) }
        ensures storage { IfOk result
            (λ t. AreEvenStorages model.now tables.now.digits period t.storage) }
    {
        let mut given = GivenHeads::new(alloc, model);
        given.advance_to(alloc, model, period - 1)?;
        PeriodTables::new(alloc, model, tables, &given)
    }

    /// The kind of a cell.
    pub fn kind_at(&self, cell: u32) -> Kind
        requires { cell < length self.now.kinds }
        ensures { result ≡ slice_index_or self.now.kinds cell NoFlow }
    {
        self.kinds.as_slice()[cell as usize]
    }

    /// The index of a variable cell among the variable cells.
    pub fn index_at(&self, cell: u32) -> u32
        requires { cell < length self.now.index }
        ensures { result ≡ slice_index_or self.now.index cell 0 }
    {
        self.index.as_slice()[cell as usize]
    }

    /// The head that a constant-head cell keeps.
    pub fn kept_pair_at(&self, cell: u32) -> Bound
        requires { cell < length self.now.kept }
        ensures { result ≡ bound_at self.now.kept cell }
    {
        self.kept.as_slice()[cell as usize]
    }
}
