// Storage, by cell.
ghost use Rattle.std.specs.Prelude.{◌≡◌, ◌<◌, ◌≤◌, ℕ, true, false, cond, None, Some, IfOk, length};
ghost use Rattle.decimal_input.specs.{size};
ghost use Rattle.conductance_bounds.specs.{IsUsable, factors_of as step_factors};
ghost use Rattle.model_types.specs.declared.given_heads.Kind.TheVariants.{NoFlow};
ghost use Rattle.model_types.specs.{cell_count, is_active, period_at, IsModel};
ghost use Rattle.problem_builder.specs.{Filled, IsTimeOf, AreFactorsOf, AreEvenFactors, HasEvenStorage, IsKind, AreTables, AreEvenStorages, storage_pair};

use crate::faces::{NO_PAIR, span_at};
use crate::periods::stress_period;
use crate::start::capped_pair;
use crate::tables::Tables;
use conductance_bounds::{Factors, Pair, Span, step_factors, storage_branch};
use model_types::layers::dec_at;
use model_types::{FlowModel, Kind, Listed, TimeStep};
use number_limits::is_one;
use scaled_decimal::Sd;
use std::alloc::{AllocError, Global};

/// The factors of a step, unless its period is steady.
pub fn factors_of(model: &FlowModel, at: TimeStep) -> Option<Factors>
    requires model { IsModel model.now }
    requires time { IsTimeOf model.now at }
    ensures { AreFactorsOf model.now at result }
{
    let period = stress_period(model, at.period);
    if period.steady {
        None
    } else {
        Some(step_factors(period.tsmult, period.nstp, at.step))
    }
}

// The factors of every step of a transient period whose steps are equally long; None for another period.
fn even_factors(model: &FlowModel, number: u32) -> Option<Factors>
    requires model { IsModel model.now }
    requires number { (1 ≤ number) × (number ≤ length model.now.periods) }
    ensures { AreEvenFactors model.now number result }
{
    let period = stress_period(model, number);
    if period.steady {
        None
    } else if is_one(period.tsmult) {
        Some(step_factors(period.tsmult, period.nstp, 1))
    } else {
        None
    }
}

// The thickness for storage: None under the option STORAGECOEFFICIENT.
fn thickness_in(model: &FlowModel, thickness: Span) -> Option<(Sd, Sd)>
    ensures { result ≡ cond model.now.coefficient None (Some (thickness.lo, thickness.hi)) }
{
    if model.coefficient {
        None
    } else {
        Some((thickness.lo, thickness.hi))
    }
}

/// The bounds of an active cell's storage, in each step of a transient period that has these factors.
pub fn storage_at(
    model: &FlowModel,
    tables: &Tables,
    number: u32,
    factors: &Factors,
    cell: u32,
) -> Pair
    requires model { IsModel model.now }
    requires number { (1 ≤ number) × (number ≤ length model.now.periods) }
    requires transient { (period_at model.now number).steady ≡ false }
    requires digits { tables.now.digits ≤ 18 }
    requires tables { AreTables model.now tables.now.digits tables.now }
    requires factors { IsUsable factors.now }
    requires cell { cell < cell_count model.now.grid }
    requires active { is_active model.now cell ≡ true }
    ensures { (n : ℕ) → factors.now ≡ step_factors (size (period_at model.now number).tsmult) (period_at model.now number).nstp n →
        result ≡ storage_pair model.now tables.now.digits (record { period = number; step = n }) cell }
{
    let period = stress_period(model, number);
    let ss = dec_at(model.ss.as_slice(), cell);
    let thickness = thickness_in(model, span_at(tables.thick.as_slice(), cell));
    let delr = model.delr_at(cell);
    let delc = model.delc_at(cell);
    let s = tables.digits;
    let perlen = period.perlen;
    capped_pair(storage_branch(ss, thickness, delr, delc, factors, perlen, s))
}

// The bounds of a cell's storage in every step, if it is a variable cell.
fn even_storage(
    model: &FlowModel,
    tables: &Tables,
    kinds: &[Kind],
    number: u32,
    factors: &Factors,
    cell: u32,
) -> Pair
    requires model { IsModel model.now }
    requires number { (1 ≤ number) × (number ≤ length model.now.periods) }
    requires digits { tables.now.digits ≤ 18 }
    requires tables { AreTables model.now tables.now.digits tables.now }
    requires kinds { Filled (IsKind model.now number) NoFlow (cell_count model.now.grid) kinds.now }
    requires factors { AreEvenFactors model.now number (Some factors.now) }
    requires cell { cell < cell_count model.now.grid }
    ensures { HasEvenStorage model.now tables.now.digits number cell result }
{
    match kinds[cell as usize] {
        Kind::Variable => storage_at(model, tables, number, factors, cell),
        Kind::Constant => NO_PAIR,
        Kind::NoFlow => NO_PAIR,
    }
}

/// For each cell the bounds of its storage in every step, if it is a variable cell; None where the period is steady,
/// or its steps are not equally long.
pub fn even_storages(
    alloc: Global,
    model: &FlowModel,
    tables: &Tables,
    kinds: &[Kind],
    number: u32,
) -> Result<Option<Listed<Pair>>, AllocError>
    requires model { IsModel model.now }
    requires number { (1 ≤ number) × (number ≤ length model.now.periods) }
    requires digits { tables.now.digits ≤ 18 }
    requires tables { AreTables model.now tables.now.digits tables.now }
    requires kinds { Filled (IsKind model.now number) NoFlow (cell_count model.now.grid) kinds.now }
    ensures { IfOk result (AreEvenStorages model.now tables.now.digits number) }
{
    let Some(factors) = even_factors(model, number) else {
        return Ok(None);
    };
    let mut pairs = Vec::new(alloc);
    let count = model.grid.cell_count();
    for cell in 0..count {
        pairs.push(even_storage(model, tables, kinds, number, &factors, cell))?;
    }
    Ok(Some(Listed::new(pairs)))
}
