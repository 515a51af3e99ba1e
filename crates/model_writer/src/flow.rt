// The file of LPF.
ghost use Rattle.std.specs.Prelude.{◌≡◌, [], ◌∷◌, ◌<◌, ◌≤◌, ◌++◌, replicate, codes, IfOk};
ghost use Rattle.model_types.specs.{HasSize};
ghost use Rattle.array_text.specs.{text};
ghost use Rattle.lpf_package.specs.{is_transient};
ghost use Rattle.model_text.specs.{lpf_arrays, lpf_item_1, lpf_item_4, lpf_item_5, lpf_lines, lpf_zeros, storage_option, each_layer};
ghost use Rattle.model_writer.specs.{line_bytes};

use crate::arrays::{push_layer, push_layer_if};
use crate::lines::push_line;
use lpf_package::is_transient;
use model_types::FlowModel;
use model_types::layers::int_at;
use std::alloc::AllocError;

/// Appends a line of the same word for each layer.
#[tactic(auto, using(crate::proofs::Texts::repeats, crate::proofs::Texts::texts))]
fn push_repeated(bytes: &mut Vec<u8>, word: &[u8], layers: u32) -> Result<(), AllocError>
    requires { 1 ≤ layers }
    ensures { IfOk result (λ _. bytes.new.items ≡ bytes.old.items ++ line_bytes (replicate layers word.now)) }
{
    for _ in 0..layers - 1 {
        bytes.extend_from_slice(word)?;
        bytes.push(b' ')?;
    }
    bytes.extend_from_slice(word)?;
    bytes.push(b'\n')?;
    Ok(())
}

/// The line of ILPFCB, HDRY and NPLPF, which are 0, and of the option.
#[tactic(auto, using(crate::proofs::Texts::options))]
fn option_line(coefficient: bool) -> &'static [u8]
    ensures { result.now ≡ line_bytes (codes "0" ∷ codes "0" ∷ codes "0" ∷ storage_option coefficient) }
{
    if coefficient {
        b"0 0 0 STORAGECOEFFICIENT\n"
    } else {
        b"0 0 0\n"
    }
}

#[tactic(auto, using(crate::proofs::Texts::texts), unfolding(model_text::specs::Discretization::lpf_item_1, model_text::specs::Discretization::lpf_zeros, model_text::specs::Discretization::lpf_item_4, model_text::specs::Discretization::lpf_item_5))]
fn push_settings(bytes: &mut Vec<u8>, model: &FlowModel) -> Result<(), AllocError>
    requires { HasSize model.now.grid }
    ensures { IfOk result (λ _. bytes.new.items ≡ bytes.old.items ++ text (lpf_item_1 model.now ∷ lpf_zeros model.now
        ∷ lpf_zeros model.now ∷ lpf_item_4 model.now ∷ lpf_item_5 model.now ∷ lpf_zeros model.now ∷ [])) }
{
    let layers = model.grid.layers;
    bytes.extend_from_slice(option_line(model.coefficient))?;
    push_repeated(bytes, b"0", layers)?;
    push_repeated(bytes, b"0", layers)?;
    push_repeated(bytes, b"-1", layers)?;
    push_line(bytes, model.layvka.as_slice())?;
    push_repeated(bytes, b"0", layers)
}

#[tactic(auto, using(crate::proofs::Texts::texts), unfolding(model_text::specs::Discretization::lpf_arrays, array_text::specs::Lines::real_array))]
fn push_properties(
    bytes: &mut Vec<u8>,
    model: &FlowModel,
    stores: bool,
    layer: u32,
) -> Result<(), AllocError>
    requires size { HasSize model.now.grid }
    requires stores { stores ≡ is_transient model.now.periods }
    requires layer { layer < model.now.grid.layers }
    ensures { IfOk result (λ _. bytes.new.items ≡ bytes.old.items ++ text (lpf_arrays model.now layer)) }
{
    let grid = &model.grid;
    push_layer(bytes, grid, model.hk.as_slice(), layer)?;
    push_layer(bytes, grid, model.hani.as_slice(), layer)?;
    push_layer(bytes, grid, model.vka.as_slice(), layer)?;
    push_layer_if(bytes, stores, grid, model.ss.as_slice(), layer)?;
    let has_bed = int_at(grid.laycbd.as_slice(), layer) != 0;
    push_layer_if(bytes, has_bed, grid, model.vkcb.as_slice(), layer)
}

#[tactic(auto, using(crate::proofs::Texts::layers, crate::proofs::Texts::texts))]
fn push_all_properties(bytes: &mut Vec<u8>, model: &FlowModel) -> Result<(), AllocError>
    requires { HasSize model.now.grid }
    ensures { IfOk result (λ _. bytes.new.items ≡ bytes.old.items ++ text (each_layer model.now.grid (lpf_arrays model.now))) }
{
    let stores = is_transient(model.periods.as_slice());
    for layer in 0..model.grid.layers {
        push_properties(bytes, model, stores, layer)?;
    }
    Ok(())
}

/// Appends the file of LPF.
#[tactic(auto, using(crate::proofs::Texts::texts), unfolding(model_text::specs::Discretization::lpf_lines))]
pub(crate) fn push_lpf(bytes: &mut Vec<u8>, model: &FlowModel) -> Result<(), AllocError>
    requires { HasSize model.now.grid }
    ensures { IfOk result (λ _. bytes.new.items ≡ bytes.old.items ++ text (lpf_lines model.now)) }
{
    push_settings(bytes, model)?;
    push_all_properties(bytes, model)
}
