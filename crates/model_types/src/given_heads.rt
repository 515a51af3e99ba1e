// The heads that CHD lists have given so far.
ghost use Rattle.std.specs.Prelude.{◌≡◌, ◌+◌, ◌<◌, ◌≤◌, All, length, IfOk, OnOk, ◌==◌, ℕ};
ghost use Rattle.model_types.specs.{cell_count, period_at, given_heads, kind_of, kinds, is_given, HasSize, IsModel};
ghost use Rattle.std.specs.List.{list_any};

use crate::entry::Given;
use crate::grid::CellId;
use crate::layers::int_at;
use crate::model::FlowModel;
use crate::optional::Optional;
use crate::period::Period;
use std::alloc::{AllocError, Global};

/// For each cell of a model the last entry of the CHD lists up to a stress period that names it. It is carried
/// from period to period, so that each list is read once.
#[derive(Drop)]
pub struct GivenHeads {
    pub period: u32,
    pub last: Optional<Given>,
}

impl GivenHeads {
    /// Before the first period, where no list has named a cell.
    #[tactic(auto, using(crate::proofs::GivenTables::heads_are, crate::proofs::GivenTables::table_none))]
    pub fn new(alloc: Global, model: &FlowModel) -> GivenHeads
        requires size { HasSize model.now.grid }
        ensures period { result.period ≡ 0 }
        ensures given { result ≡ given_heads model.now result.period }
    {
        GivenHeads {
            period: 0,
            last: Optional::none(alloc, model.grid.cell_count()),
        }
    }

    /// The given heads after the next period.
    pub fn next(&self, alloc: Global, model: &FlowModel) -> Result<GivenHeads, AllocError>
        requires size { HasSize model.now.grid }
        requires before { self.now ≡ given_heads model.now self.now.period }
        requires period { self.now.period < length model.now.periods }
        requires few { length model.now.periods ≤ 1000 }
        requires cells { All (λ x. x.cell.0 < cell_count model.now.grid) (period_at model.now (self.now.period + 1)).stresses.given }
        ensures period { IfOk result (λ g. g.period ≡ self.now.period + 1) }
        ensures given { IfOk result (λ g. g ≡ given_heads model.now g.period) }
    {
        let list = model.periods.as_slice()[self.period as usize]
            .stresses
            .given
            .as_slice();
        let mut last = self.last.again(alloc)?;
        for x in list {
            last.set(alloc, x.cell.0, Some(*x))?;
        }
        Ok(GivenHeads {
            period: self.period + 1,
            last,
        })
    }

    /// Moves to the given heads of this period. It starts anew before an earlier one.
    pub fn advance_to(
        &mut self,
        alloc: Global,
        model: &FlowModel,
        period: u32,
    ) -> Result<(), AllocError>
        requires model { IsModel model.now }
        requires given { self.old ≡ given_heads model.now self.old.period }
        requires last { period ≤ length model.now.periods }
        ensures given { self.new ≡ given_heads model.now self.new.period }
        ensures there { OnOk result (self.new.period ≡ period) }
    {
        self.begin_until(alloc, model, period);
        for _ in self.period..period {
            *self = self.next(alloc, model)?;
        }
        Ok(())
    }

    // Starts anew before the first period, if the given heads are those of a later period than this one.
    fn begin_until(&mut self, alloc: Global, model: &FlowModel, period: u32)
        requires model { IsModel model.now }
        requires given { self.old ≡ given_heads model.now self.old.period }
        ensures given { self.new ≡ given_heads model.now self.new.period }
        ensures before { self.new.period ≤ period }
    {
        if self.period > period {
            *self = GivenHeads::new(alloc, model);
        }
    }

    /// The kind of a cell in the period.
    pub fn kind(&self, model: &FlowModel, cell: u32) -> Kind
        requires cell { cell < cell_count model.now.grid }
        requires given { self.now ≡ given_heads model.now self.now.period }
        ensures { result ≡ kind_of model.now self.now.period cell }
    {
        kind_by(model, cell, self.last.at(cell).is_some())
    }

    /// The kinds of all cells in the period, by cell number.
    pub fn kinds(&self, alloc: Global, model: &FlowModel) -> Result<Vec<Kind>, AllocError>
        requires size { HasSize model.now.grid }
        requires given { self.now ≡ given_heads model.now self.now.period }
        ensures { IfOk result (λ ks. ks.items ≡ kinds model.now self.now.period) }
    {
        let mut kinds = Vec::new(alloc);
        for cell in 0..model.grid.cell_count() {
            kinds.push(self.kind(model, cell))?;
        }
        Ok(kinds)
    }
}

// What a cell is in a stress period.

/// What a cell is in a stress period: without flow, with a constant head, or with a variable head.
#[derive(Clone, Copy)]
pub enum Kind {
    NoFlow,
    Constant,
    Variable,
}

/// The kind of a cell in a period, counted from 1. It reads the CHD lists up to the period; `GivenHeads` finds the
/// kinds of all cells in one pass.
pub fn kind_at(model: &FlowModel, period: u32, cell: CellId) -> Kind
    ensures { result ≡ kind_of model.now period cell.0 }
{
    kind_by(model, cell.0, is_given(model, period, cell.0))
}

// The kind of a cell, by whether a CHD list has named it.
pub(crate) fn kind_by(model: &FlowModel, cell: u32, given: bool) -> Kind
    ensures { (p : ℕ) → given ≡ is_given model.now p cell → result ≡ kind_of model.now p cell }
{
    let ibound = int_at(model.ibound.as_slice(), cell);
    if ibound == 0 {
        Kind::NoFlow
    } else if ibound < 0 || given {
        Kind::Constant
    } else {
        Kind::Variable
    }
}

// Whether a list of a period up to this one names the cell.
#[tactic(auto, using(crate::proofs::GivenTables::given_among))]
fn is_given(model: &FlowModel, period: u32, cell: u32) -> bool
    ensures { result ≡ is_given model.now period cell }
{
    let periods = model.periods.as_slice();
    let count = periods.len().min(period as usize);
    any_names(&periods[..count], cell)
}

fn any_names(periods: &[Period], cell: u32) -> bool
    ensures { result ≡ list_any (λ p. list_any (λ x. x.cell.0 == cell) p.stresses.given) periods.now }
{
    for p in periods {
        if names(p.stresses.given.as_slice(), cell) {
            return true;
        }
    }
    false
}

fn names(list: &[Given], cell: u32) -> bool
    ensures { result ≡ list_any (λ x. x.cell.0 == cell) list.now }
{
    list.iter().any(|x| x.cell.0 == cell)
}
