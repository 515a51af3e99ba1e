// The first line: NLAY NROW NCOL NPER ITMUNI LENUNI.
ghost use Rattle.std.specs.Prelude.{◌≡◌, IfOk, ◌≤◌, ◌*◌, ◌-◌};
ghost use Rattle.record_lines.specs.{GivesText, HasText};
ghost use Rattle.dis_package.specs.{count_at, size_at, frame_of, beds_of};

use array_reader::{integer, values, zero_item};
use model_types::Limits;
use number_limits::within;
use outside::{Code, TextFault, text_fault};
use record_lines::{Free, Lines, Words};
use std::alloc::Global;

/// How many layers, rows and columns.
#[derive(Clone, Copy)]
pub struct Size {
    pub layers: u32,
    pub rows: u32,
    pub cols: u32,
}

/// The first line of a file of the discretization.
#[derive(Clone, Copy)]
pub struct Frame {
    pub size: Size,
    pub periods: u32,
    pub lenuni: i64,
}

/// The next word as a count from 1 to a limit.
#[tactic(auto, unfolding(crate::specs::Frames::count_at))]
pub fn count_at(
    alloc: Global,
    words: &mut Words,
    file: &str,
    line: u32,
    limit: u32,
) -> Result<u32, TextFault>
    ensures count { GivesText (λ n. n) result words.new (count_at file.now line limit words.old) }
    ensures limits { IfOk result (λ n. (1 ≤ n) × (n ≤ limit)) }
{
    let z = integer(alloc, words, file, line)?;
    match within(z, limit) {
        Some(n) => Ok(n),
        None => Err(text_fault(alloc, Code::BadGrid, file, line)),
    }
}

#[tactic(auto, unfolding(crate::specs::Frames::size_at))]
fn size_at(
    alloc: Global,
    limits: Limits,
    words: &mut Words,
    file: &str,
    line: u32,
) -> Result<Size, TextFault>
    ensures size { GivesText (λ s. s) result words.new (size_at limits file.now line words.old) }
{
    let layers = count_at(alloc, words, file, line, limits.layers())?;
    let rows = count_at(alloc, words, file, line, limits.in_row())?;
    let cols = count_at(alloc, words, file, line, limits.in_row())?;
    if layers as u64 * (rows as u64 * cols as u64) > limits.cells() as u64 {
        return Err(text_fault(alloc, Code::BadGrid, file, line));
    }
    Ok(Size { layers, rows, cols })
}

#[tactic(auto, unfolding(crate::specs::Frames::frame_of))]
pub fn frame_of(
    alloc: Global,
    limits: Limits,
    words: &mut Words,
    file: &str,
    line: u32,
) -> Result<Frame, TextFault>
    ensures frame { HasText (λ f. f) result (frame_of limits file.now line words.old) }
{
    let size = size_at(alloc, limits, words, file, line)?;
    let periods = count_at(alloc, words, file, line, 1000)?;
    integer(alloc, words, file, line)?;
    let lenuni = integer(alloc, words, file, line)?;
    Ok(Frame {
        size,
        periods,
        lenuni,
    })
}

// LAYCBD: which layers have a confining bed below them.

/// An integer for each layer, of which the last is 0.
#[tactic(auto, unfolding(crate::specs::Frames::beds_of))]
pub fn beds_of(
    alloc: Global,
    lines: &mut Lines<'_>,
    file: &str,
    layers: u32,
) -> Result<Vec<i64>, TextFault>
    requires { 1 ≤ layers }
    ensures beds { GivesText (λ v. v.items) result lines.new (beds_of file.now layers lines.old) }
{
    let mut free = Free::begin();
    let mut beds = values::<i64>(alloc, &mut free, lines, file, None, layers - 1)?;
    let last = zero_item(alloc, &mut free, lines, file)?;
    beds.push(last)?;
    Ok(beds)
}
