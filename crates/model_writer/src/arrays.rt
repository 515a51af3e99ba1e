// Arrays and the layers of lists by cell.
ghost use Rattle.std.specs.Prelude.{◌≡◌, ◌<◌, [], ◌++◌, take, drop, if◌then◌else◌, IfOk};
ghost use Rattle.model_types.specs.{HasSize};
ghost use Rattle.array_text.specs.{array_lines, row_lines, text};
ghost use Rattle.model_text.specs.{each_layer, layer_values, real_layer};

use crate::lines::push_line;
use crate::words::Word;
use decimal_input::dec::Dec;
use model_types::Grid;
use std::alloc::AllocError;

/// The first values, and the others.
#[tactic(auto, using(std::proofs::lemmas::List::take_min, std::proofs::lemmas::List::drop_min))]
fn split_first<T>(values: &[T], count: usize) -> (&[T], &[T])
    ensures first { result.0.now ≡ take count values.now }
    ensures others { result.1.now ≡ drop count values.now }
{
    values.split_at(count.min(values.len()))
}

#[tactic(auto, using(crate::proofs::Texts::rows, crate::proofs::Texts::texts))]
fn push_rows<T: Word>(
    bytes: &mut Vec<u8>,
    rows: u32,
    cols: u32,
    values: &[T],
) -> Result<(), AllocError>
    ensures { IfOk result (λ _. bytes.new.items ≡ bytes.old.items ++ text (row_lines T.word rows cols values.now)) }
{
    let mut left = values;
    for _ in 0..rows {
        let (row, others) = split_first(left, cols as usize);
        push_line(bytes, row)?;
        left = others;
    }
    Ok(())
}

/// Appends an array: its control record, and each row on a line of its own.
#[tactic(auto, using(crate::proofs::Texts::texts), unfolding(crate::specs::Lists::line_bytes, array_text::specs::Lines::line_text))]
pub(crate) fn push_array<T: Word>(
    bytes: &mut Vec<u8>,
    rows: u32,
    cols: u32,
    values: &[T],
) -> Result<(), AllocError>
    ensures { IfOk result (λ _. bytes.new.items ≡ bytes.old.items ++ text (array_lines T.word rows cols values.now)) }
{
    bytes.extend_from_slice(b"INTERNAL 1 (FREE) -1\n")?;
    push_rows(bytes, rows, cols, values)
}

/// Appends the array of a layer, from 0.
pub(crate) fn push_layer<T: Word>(
    bytes: &mut Vec<u8>,
    grid: &Grid,
    values: &[T],
    layer: u32,
) -> Result<(), AllocError>
    requires size { HasSize grid.now }
    requires layer { layer < grid.now.layers }
    ensures { IfOk result (λ _. bytes.new.items ≡ bytes.old.items
        ++ text (array_lines T.word grid.now.rows grid.now.cols (layer_values grid.now layer values.now))) }
{
    let size = grid.layer_size() as usize;
    let (_, left) = split_first(values, layer as usize * size);
    let (cells, _) = split_first(left, size);
    push_array(bytes, grid.rows, grid.cols, cells)
}

/// Appends the array of a layer if the model has it.
#[tactic(auto, using(crate::proofs::Texts::texts), unfolding(array_text::specs::Lines::real_array))]
pub(crate) fn push_layer_if(
    bytes: &mut Vec<u8>,
    present: bool,
    grid: &Grid,
    values: &[Dec],
    layer: u32,
) -> Result<(), AllocError>
    requires size { HasSize grid.now }
    requires layer { layer < grid.now.layers }
    ensures { IfOk result (λ _. bytes.new.items ≡ bytes.old.items
        ++ text (if present then real_layer grid.now values.now layer else [])) }
{
    if present {
        push_layer(bytes, grid, values, layer)?;
    }
    Ok(())
}

/// Appends the array of each layer in turn.
#[tactic(auto, using(crate::proofs::Texts::layers, crate::proofs::Texts::texts))]
pub(crate) fn push_layers<T: Word>(
    bytes: &mut Vec<u8>,
    grid: &Grid,
    values: &[T],
) -> Result<(), AllocError>
    requires { HasSize grid.now }
    ensures { IfOk result (λ _. bytes.new.items ≡ bytes.old.items
        ++ text (each_layer grid.now (λ k. array_lines T.word grid.now.rows grid.now.cols (layer_values grid.now k values.now)))) }
{
    for layer in 0..grid.layers {
        push_layer(bytes, grid, values, layer)?;
    }
    Ok(())
}
