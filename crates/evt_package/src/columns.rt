// The tests of the columns of layers.
ghost use Rattle.std.specs.Prelude.{◌≡◌, ◌<◌, All, None, if◌then◌else◌, ◌^◌, IfSome, unsigned_abs};
ghost use Rattle.decimal_input.specs.{IsDec};
ghost use Rattle.record_lines.specs.{HasText};
ghost use Rattle.model_types.specs.{layer_size, HasSize, int_at, is_nonzero};
ghost use Rattle.period_arrays.specs.{IsReals};
ghost use Rattle.evt_package.specs.{column_step, columns_tested, source, evap_fault, has_extinction, is_reached};

use crate::chosen::chosen_cell;
use decimal_input::dec::Dec;
use decimal_input::units::{ceil_at, floor_at};
use model_types::Grid;
use model_types::layers::{dec_at, int_at};
use number_limits::{is_head, is_positive};
use outside::{Code, TextFault};
use period_arrays::{Area, cell_refused};
use std::alloc::Global;

/// The fault of the cell that a column chooses, if that is active.
#[tactic(auto, using(number_limits::proofs::Canonical::dec_at_is))]
fn cell_fault(ibound: &[i64], area: &Area, column: u32, cell: u32) -> Option<Code>
    requires surfaces { All IsDec area.now.surfaces }
    requires depths { All IsDec area.now.depths }
    ensures { result ≡ if is_nonzero (int_at ibound.now cell) then evap_fault (source area.now column) else None }
{
    if int_at(ibound, cell) == 0 {
        return None;
    }
    evap_fault(
        dec_at(area.rates.as_slice(), column),
        dec_at(area.surfaces.as_slice(), column),
        dec_at(area.depths.as_slice(), column),
    )
}

fn test_column(
    alloc: Global,
    file: &str,
    grid: &Grid,
    ibound: &[i64],
    option: &i64,
    area: &Area,
    column: u32,
) -> Result<(), TextFault>
    requires size { HasSize grid.now }
    requires surfaces { IsReals grid.now area.now.surfaces }
    requires depths { IsReals grid.now area.now.depths }
    requires column { column < layer_size grid.now }
    ensures { HasText (λ _. tt) result (column_step file.now grid.now ibound.now option.now area.now column tt) }
{
    let Some(cell) = chosen_cell(grid, ibound, option, area.layers.as_slice(), column) else {
        return Ok(());
    };
    match cell_fault(ibound, area, column, cell) {
        None => Ok(()),
        Some(code) => Err(cell_refused(alloc, code, file, grid, cell)),
    }
}

/// Refuses the first column whose chosen cell is active and fails a test, at that cell.
#[tactic(auto, unfolding(crate::specs::Evaporation::columns_tested))]
pub fn test_columns(
    alloc: Global,
    file: &str,
    grid: &Grid,
    ibound: &[i64],
    option: &i64,
    area: &Area,
) -> Result<(), TextFault>
    requires size { HasSize grid.now }
    requires surfaces { IsReals grid.now area.now.surfaces }
    requires depths { IsReals grid.now area.now.depths }
    ensures { HasText (λ _. tt) result (columns_tested file.now grid.now ibound.now option.now area.now) }
{
    let columns = grid.layer_size();
    for column in 0..columns {
        test_column(alloc, file, grid, ibound, option, area, column)?;
    }
    Ok(())
}

// The tests of an evapotranspiration.

/// The first test that a rate, a surface and a depth fail.
pub fn evap_fault(rate: Dec, surface: Dec, depth: Dec) -> Option<Code>
    requires surface { IsDec surface }
    requires depth { IsDec depth }
    ensures { result ≡ evap_fault (record { rate = rate; surface = surface; depth = depth }) }
{
    if rate.neg {
        Some(Code::BadProperty)
    } else if rate.digits == 0 {
        None
    } else if !is_positive(depth) {
        Some(Code::BadProperty)
    } else if is_head(surface) && has_extinction(surface, depth) {
        None
    } else {
        Some(Code::HeadTooLarge)
    }
}

// The extinction elevation, which is the surface less the depth.

/// The greatest magnitude of a head, 4000000000 length units, in units of 10 ^ -9.
const HEAD_LIMIT: i128 = 4_000_000_000_000_000_000;

fn is_reached(surface: Option<i128>, depth: Option<i128>) -> bool
    requires surface { IfSome surface (λ z. unsigned_abs z < 2 ^ 126) }
    requires depth { IfSome depth (λ z. unsigned_abs z < 2 ^ 126) }
    ensures { result ≡ is_reached surface depth }
{
    match (surface, depth) {
        (Some(f), Some(c)) => c - HEAD_LIMIT <= f,
        _ => false,
    }
}

/// Whether the extinction elevation is a head, by the floor of the surface and the ceiling of the depth in units of
/// 10 ^ -9 length units.
#[tactic(auto, unfolding(crate::specs::Evaporation::has_extinction))]
pub fn has_extinction(surface: Dec, depth: Dec) -> bool
    requires surface { IsDec surface }
    requires depth { IsDec depth }
    ensures { result ≡ has_extinction surface depth }
{
    let top = floor_at(surface, 9);
    let down = ceil_at(depth, 9);
    is_reached(top, down)
}
