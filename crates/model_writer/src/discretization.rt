// The file of DIS.
ghost use Rattle.std.specs.Prelude.{◌≡◌, ◌∷◌, ◌<◌, ◌++◌, map, IfOk};
ghost use Rattle.model_types.specs.{HasSize};
ghost use Rattle.array_text.specs.{text};
ghost use Rattle.model_text.specs.{dis_item_1, dis_item_2, dis_item_3, dis_item_4, dis_item_5, dis_item_6, dis_item_7, dis_lines, each_layer, bas_lines};
ghost use Rattle.model_writer.specs.{line_bytes};

use crate::arrays::{push_array, push_layer, push_layer_if, push_layers};
use crate::lines::{push_line, push_spaced};
use model_types::layers::int_at;
use model_types::{FlowModel, Grid, Period};
use std::alloc::AllocError;

#[tactic(auto, using(crate::proofs::Texts::size_line, crate::proofs::Texts::texts))]
fn push_size(bytes: &mut Vec<u8>, model: &FlowModel) -> Result<(), AllocError>
    ensures { IfOk result (λ _. bytes.new.items ≡ bytes.old.items ++ line_bytes (dis_item_1 model.now)) }
{
    let grid = &model.grid;
    let sizes = [
        grid.layers as usize,
        grid.rows as usize,
        grid.cols as usize,
        model.periods.as_slice().len(),
    ];
    push_spaced(bytes, &sizes)?;
    bytes.extend_from_slice(b"0 ")?;
    push_line(bytes, &[model.lenuni])
}

#[tactic(auto, using(crate::proofs::Texts::texts), unfolding(model_text::specs::Discretization::dis_item_2, model_text::specs::Discretization::dis_item_3, model_text::specs::Discretization::dis_item_4, model_text::specs::Discretization::dis_item_5, array_text::specs::Lines::real_array))]
fn push_widths(bytes: &mut Vec<u8>, grid: &Grid) -> Result<(), AllocError>
    ensures { IfOk result (λ _. bytes.new.items ≡ bytes.old.items
        ++ text (dis_item_2 grid.now ∷ (dis_item_3 grid.now ++ (dis_item_4 grid.now ++ dis_item_5 grid.now)))) }
{
    push_line(bytes, grid.laycbd.as_slice())?;
    push_array(bytes, 1, grid.cols, grid.delr.as_slice())?;
    push_array(bytes, 1, grid.rows, grid.delc.as_slice())?;
    push_array(bytes, grid.rows, grid.cols, grid.top.as_slice())
}

#[tactic(auto, using(crate::proofs::Texts::texts), unfolding(model_text::specs::Discretization::dis_item_6, array_text::specs::Lines::real_array))]
fn push_bottom(bytes: &mut Vec<u8>, grid: &Grid, layer: u32) -> Result<(), AllocError>
    requires size { HasSize grid.now }
    requires layer { layer < grid.now.layers }
    ensures { IfOk result (λ _. bytes.new.items ≡ bytes.old.items ++ text (dis_item_6 grid.now layer)) }
{
    push_layer(bytes, grid, grid.bottom.as_slice(), layer)?;
    let has_bed = int_at(grid.laycbd.as_slice(), layer) != 0;
    push_layer_if(bytes, has_bed, grid, grid.bed_bottom.as_slice(), layer)
}

#[tactic(auto, using(crate::proofs::Texts::layers, crate::proofs::Texts::texts))]
fn push_bottoms(bytes: &mut Vec<u8>, grid: &Grid) -> Result<(), AllocError>
    requires { HasSize grid.now }
    ensures { IfOk result (λ _. bytes.new.items ≡ bytes.old.items ++ text (each_layer grid.now (dis_item_6 grid.now))) }
{
    for layer in 0..grid.layers {
        push_bottom(bytes, grid, layer)?;
    }
    Ok(())
}

#[tactic(auto, using(crate::proofs::Texts::spaces, crate::proofs::Texts::texts), unfolding(model_text::specs::Discretization::dis_item_7, crate::specs::Lists::line_bytes, array_text::specs::Lines::line_text, crate::specs::Lists::spaced_words))]
fn push_time(bytes: &mut Vec<u8>, period: &Period) -> Result<(), AllocError>
    ensures { IfOk result (λ _. bytes.new.items ≡ bytes.old.items ++ line_bytes (dis_item_7 period.now)) }
{
    push_spaced(bytes, &[period.perlen])?;
    push_spaced(bytes, &[period.nstp as usize])?;
    push_spaced(bytes, &[period.tsmult])?;
    bytes.extend_from_slice(if period.steady { b"SS\n" } else { b"TR\n" })
}

#[tactic(auto, using(crate::proofs::ListTexts::items, crate::proofs::Texts::texts))]
fn push_times(bytes: &mut Vec<u8>, periods: &[Period]) -> Result<(), AllocError>
    ensures { IfOk result (λ _. bytes.new.items ≡ bytes.old.items ++ text (map dis_item_7 periods.now)) }
{
    for period in periods {
        push_time(bytes, period)?;
    }
    Ok(())
}

/// Appends the file of DIS.
#[tactic(auto, using(crate::proofs::Texts::texts), unfolding(model_text::specs::Discretization::dis_lines))]
pub(crate) fn push_dis(bytes: &mut Vec<u8>, model: &FlowModel) -> Result<(), AllocError>
    requires { HasSize model.now.grid }
    ensures { IfOk result (λ _. bytes.new.items ≡ bytes.old.items ++ text (dis_lines model.now)) }
{
    push_size(bytes, model)?;
    push_widths(bytes, &model.grid)?;
    push_bottoms(bytes, &model.grid)?;
    push_times(bytes, model.periods.as_slice())
}

// The file of BAS6.

/// Appends the file of BAS6.
#[tactic(auto, using(crate::proofs::Texts::texts), unfolding(model_text::specs::Discretization::bas_lines, model_text::specs::Discretization::bas_item_1, model_text::specs::Discretization::bas_item_2, model_text::specs::Discretization::bas_item_3, model_text::specs::Discretization::bas_item_4, crate::specs::Lists::line_bytes, array_text::specs::Lines::line_text, array_text::specs::Lines::real_array, array_text::specs::Lines::integer_array))]
pub(crate) fn push_bas(bytes: &mut Vec<u8>, model: &FlowModel) -> Result<(), AllocError>
    requires { HasSize model.now.grid }
    ensures { IfOk result (λ _. bytes.new.items ≡ bytes.old.items ++ text (bas_lines model.now)) }
{
    bytes.extend_from_slice(b"FREE\n")?;
    push_layers(bytes, &model.grid, model.ibound.as_slice())?;
    bytes.extend_from_slice(b"0\n")?;
    push_layers(bytes, &model.grid, model.strt.as_slice())
}
