// The files of RCH and EVT.
ghost use Rattle.std.specs.Prelude.{◌≡◌, [], ◌++◌, if◌then◌else◌, IfOk};
ghost use Rattle.std.specs.List.{flat_map};
ghost use Rattle.model_types.specs.{is_int};
ghost use Rattle.array_text.specs.{integer_array, text};
ghost use Rattle.model_text.specs.{evt_items, evt_lines, rch_items, rch_lines};

use crate::arrays::push_array;
use crate::lines::push_with_zero;
use model_types::{FlowModel, Grid, Period};
use std::alloc::AllocError;

fn is_two(option: i64) -> bool
    ensures { result ≡ is_int option 2 }
{
    option == 2
}

/// Appends IRCH or IEVT where NRCHOP or NEVTOP is 2.
#[tactic(auto, using(crate::proofs::Texts::texts), unfolding(array_text::specs::Lines::integer_array))]
fn push_layers_if_two(
    bytes: &mut Vec<u8>,
    option: i64,
    grid: &Grid,
    values: &[i64],
) -> Result<(), AllocError>
    ensures { IfOk result (λ _. bytes.new.items ≡ bytes.old.items
        ++ text (if is_int option 2 then integer_array grid.now.rows grid.now.cols values.now else [])) }
{
    if is_two(option) {
        push_array(bytes, grid.rows, grid.cols, values)?;
    }
    Ok(())
}

#[tactic(auto, using(crate::proofs::Texts::two_flags, crate::proofs::Texts::texts), unfolding(model_text::specs::Lists::rch_items, array_text::specs::Lines::real_array))]
fn push_recharge(bytes: &mut Vec<u8>, model: &FlowModel, period: &Period) -> Result<(), AllocError>
    ensures { IfOk result (λ _. bytes.new.items ≡ bytes.old.items ++ text (rch_items model.now period.now)) }
{
    let grid = &model.grid;
    bytes.extend_from_slice(b"1 1\n")?;
    push_array(
        bytes,
        grid.rows,
        grid.cols,
        period.stresses.recharge.as_slice(),
    )?;
    push_layers_if_two(bytes, model.nrchop, grid, period.stresses.irch.as_slice())
}

#[tactic(auto, using(crate::proofs::ListTexts::items, crate::proofs::Texts::texts))]
fn push_recharge_of_periods(bytes: &mut Vec<u8>, model: &FlowModel) -> Result<(), AllocError>
    ensures { IfOk result (λ _. bytes.new.items ≡ bytes.old.items ++ text (flat_map (rch_items model.now) model.now.periods)) }
{
    for period in model.periods.as_slice() {
        push_recharge(bytes, model, period)?;
    }
    Ok(())
}

/// Appends the file of RCH.
#[tactic(auto, using(crate::proofs::Texts::texts), unfolding(model_text::specs::Lists::rch_lines, model_text::specs::Lists::rch_item_2))]
pub(crate) fn push_rch(bytes: &mut Vec<u8>, model: &FlowModel) -> Result<(), AllocError>
    ensures { IfOk result (λ _. bytes.new.items ≡ bytes.old.items ++ text (rch_lines model.now)) }
{
    push_with_zero(bytes, &model.nrchop)?;
    push_recharge_of_periods(bytes, model)
}

#[tactic(auto, using(crate::proofs::Texts::four_flags, crate::proofs::Texts::texts), unfolding(model_text::specs::Lists::evt_items, array_text::specs::Lines::real_array))]
fn push_evaporation(
    bytes: &mut Vec<u8>,
    model: &FlowModel,
    period: &Period,
) -> Result<(), AllocError>
    ensures { IfOk result (λ _. bytes.new.items ≡ bytes.old.items ++ text (evt_items model.now period.now)) }
{
    let grid = &model.grid;
    bytes.extend_from_slice(b"1 1 1 1\n")?;
    push_array(bytes, grid.rows, grid.cols, period.stresses.surf.as_slice())?;
    push_array(bytes, grid.rows, grid.cols, period.stresses.evtr.as_slice())?;
    push_array(bytes, grid.rows, grid.cols, period.stresses.exdp.as_slice())?;
    push_layers_if_two(bytes, model.nevtop, grid, period.stresses.ievt.as_slice())
}

#[tactic(auto, using(crate::proofs::ListTexts::items, crate::proofs::Texts::texts))]
fn push_evaporation_of_periods(bytes: &mut Vec<u8>, model: &FlowModel) -> Result<(), AllocError>
    ensures { IfOk result (λ _. bytes.new.items ≡ bytes.old.items ++ text (flat_map (evt_items model.now) model.now.periods)) }
{
    for period in model.periods.as_slice() {
        push_evaporation(bytes, model, period)?;
    }
    Ok(())
}

/// Appends the file of EVT.
#[tactic(auto, using(crate::proofs::Texts::texts), unfolding(model_text::specs::Lists::evt_lines, model_text::specs::Lists::evt_item_2))]
pub(crate) fn push_evt(bytes: &mut Vec<u8>, model: &FlowModel) -> Result<(), AllocError>
    ensures { IfOk result (λ _. bytes.new.items ≡ bytes.old.items ++ text (evt_lines model.now)) }
{
    push_with_zero(bytes, &model.nevtop)?;
    push_evaporation_of_periods(bytes, model)
}
