// Heads that CHD lists give, and heads that constant-head cells keep.
ghost use Rattle.std.specs.Prelude.{◌≡◌, ◌<◌, All, None, IfOk, IfSome};
ghost use Rattle.step_problem.specs.{no_bound};
ghost use Rattle.model_types.specs.{cell_count, dec_at, IsHeadNumber, given_heads, IsModel};
ghost use Rattle.problem_builder.specs.{kept_bound, IsKept, Filled, IsGivenIn};

use crate::start::{NO_HEADS, head_pair};
use model_types::layers::dec_at;
use model_types::{FlowModel, Given, GivenHeads, Optional};
use std::alloc::{AllocError, Global};
use step_problem::Bound;

/// For each cell the last entry of a list that names it.
pub fn last_entries(
    alloc: Global,
    list: &[Given],
    count: u32,
) -> Result<Optional<Given>, AllocError>
    requires { All (λ x. x.cell.0 < count) list.now }
    ensures { IfOk result (Filled (IsGivenIn list.now) None count) }
{
    let mut table = Optional::none(alloc, count);
    for x in list {
        table.set(alloc, x.cell.0, Some(*x))?;
    }
    Ok(table)
}

// The head that an active cell keeps, where this is its last entry.
fn kept_pair(model: &FlowModel, last: Option<Given>, cell: u32) -> Bound
    requires strt { IsHeadNumber (dec_at model.now.strt cell) }
    requires last { IfSome last (λ x. IsHeadNumber x.ehead) }
    ensures { result ≡ kept_bound model.now cell last }
{
    match last {
        Some(x) => head_pair(x.ehead),
        None => head_pair(dec_at(model.strt.as_slice(), cell)),
    }
}

fn kept_pair_at(model: &FlowModel, given: &GivenHeads, cell: u32) -> Bound
    requires model { IsModel model.now }
    requires given { given.now ≡ given_heads model.now given.now.period }
    requires cell { cell < cell_count model.now.grid }
    ensures { IsKept model.now given.now.period cell result }
{
    if !model.is_active(cell) {
        return NO_HEADS;
    }
    kept_pair(model, given.last.at(cell), cell)
}

/// The head that each active cell keeps after the period of `given`, if it is a constant-head cell.
pub fn kept_heads(
    alloc: Global,
    model: &FlowModel,
    given: &GivenHeads,
) -> Result<Vec<Bound>, AllocError>
    requires model { IsModel model.now }
    requires given { given.now ≡ given_heads model.now given.now.period }
    ensures { IfOk result (λ v. Filled (IsKept model.now given.now.period) no_bound (cell_count model.now.grid) v.items) }
{
    let mut bounds = Vec::new(alloc);
    let count = model.grid.cell_count();
    for cell in 0..count {
        bounds.push(kept_pair_at(model, given, cell))?;
    }
    Ok(bounds)
}
