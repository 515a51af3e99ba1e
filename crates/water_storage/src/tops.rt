// The top of a cell in units of 10^-9.
ghost use Rattle.std.specs.Prelude.{◌≡◌, ◌<◌, ◌^◌, ℤ, true, unsigned_abs};
ghost use Rattle.decimal_input.specs.{IsDec, IsSignedCeiling, IsSignedFloor, number};
ghost use Rattle.scaled_decimal.specs.{Lower, Upper};
ghost use Rattle.conductance_bounds.specs.{units_at};
ghost use Rattle.model_types.specs.{IsModel, cell_count, is_active};
ghost use Rattle.water_storage.specs.{IsTop, both_of, top_bound};

use decimal_input::dec::Dec;
use decimal_input::units::{ceil_at, floor_at};
use model_types::FlowModel;

/// The floor and the ceiling of an elevation. They may lie beyond the range of heads.
#[derive(Clone, Copy)]
pub(crate) struct Top {
    pub low: i128,
    pub high: i128,
}

fn floor_of(x: Dec) -> i128
    requires number { IsDec x }
    requires small { (z : ℤ) → IsSignedFloor z (number x) 9 → unsigned_abs z < 2 ^ 126 }
    ensures { result ≡ units_at Lower x 9 }
{
    floor_at(x, 9).unwrap_or(0)
}

fn ceiling_of(x: Dec) -> i128
    requires number { IsDec x }
    requires small { (z : ℤ) → IsSignedCeiling z (number x) 9 → unsigned_abs z < 2 ^ 126 }
    ensures { result ≡ units_at Upper x 9 }
{
    ceil_at(x, 9).unwrap_or(0)
}

/// The floor and the ceiling of the top of an active cell.
pub(crate) fn top_of(model: &FlowModel, cell: u32) -> Top
    requires model { IsModel model.now }
    requires cell { cell < cell_count model.now.grid }
    requires active { is_active model.now cell ≡ true }
    ensures is { both_of result.low result.high ≡ top_bound model.now cell }
    ensures top { IsTop (both_of result.low result.high) }
{
    let top = model.top_at(cell);
    Top {
        low: floor_of(top),
        high: ceiling_of(top),
    }
}
