ghost use Rattle.std.specs.Prelude.{◌≡◌, Ok, ◌++◌, replicate, IfOk, IfSome};
ghost use Rattle.outside.specs.{IsRefusal};
ghost use Rattle.record_lines.specs.{GivesText, repeated_reading};
ghost use Rattle.array_reader.specs.{with_multiplier, free_refusal, value_alone, value_at, free_list, free_rows};

use crate::items::number_refused;
use crate::numbers::{Value, value_of};
use decimal_input::dec::Dec;
use model_types::Listed;
use outside::{Code, TextFault, text_fault};
use record_lines::{Free, FreeFault, Lines};
use std::alloc::{AllocError, Global};

/// The refusal for a fault of a free list in this file.
pub fn free_refused(alloc: Global, fault: FreeFault, file: &str) -> TextFault
    ensures { IsRefusal (free_refusal file.now fault).code file.now (free_refusal file.now fault).line result }
{
    match fault {
        FreeFault::EndOfFile(line) => text_fault(alloc, Code::EndOfFile, file, line),
        FreeFault::BadNumber(line) => text_fault(alloc, Code::BadNumber, file, line),
    }
}

/// The next value of a free list, and the number of its line.
#[tactic(auto, unfolding(crate::specs::Arrays::value_at))]
pub fn next_value<'a, V: Value>(
    alloc: Global,
    free: &mut Free<'a>,
    lines: &mut Lines<'a>,
    file: &str,
    by: Option<V>,
) -> Result<(V, u32), TextFault>
    requires by { IfSome by V.Good }
    ensures { GivesText (λ x. x) result (free.new, lines.new) (value_at (with_multiplier V.kind by) file.now (free.old, lines.old)) }
{
    match free.next(lines) {
        Err(fault) => Err(free_refused(alloc, fault, file)),
        Ok((word, line)) => match value_of(word, by) {
            Ok(value) => Ok((value, line)),
            Err(fault) => Err(number_refused(alloc, fault, file, line)),
        },
    }
}

// The next value. It is `last`, the value of the last word, if it is one of that word's repeats.
#[tactic(auto, unfolding(crate::specs::Arrays::value_alone))]
fn next_kept<'a, V: Value>(
    alloc: Global,
    free: &mut Free<'a>,
    lines: &mut Lines<'a>,
    file: &str,
    by: Option<V>,
    last: Option<V>,
) -> Result<V, TextFault>
    requires by { IfSome by V.Good }
    requires last { IfSome last (λ v. with_multiplier V.kind by free.old.word ≡ Ok v) }
    ensures value { GivesText (λ x. x) result (free.new, lines.new) (value_alone (with_multiplier V.kind by) file.now (free.old, lines.old)) }
    ensures last { IfOk result (λ v. with_multiplier V.kind by free.new.word ≡ Ok v) }
{
    if let Some(value) = last {
        if free.repeats() {
            return Ok(value);
        }
    }
    let (value, _) = next_value(alloc, free, lines, file, by)?;
    Ok(value)
}

/// Reads `count` values of a free list. A word is parsed once for all its repeats.
pub fn values<'a, V: Value>(
    alloc: Global,
    free: &mut Free<'a>,
    lines: &mut Lines<'a>,
    file: &str,
    by: Option<V>,
    count: u32,
) -> Result<Vec<V>, TextFault>
    requires by { IfSome by V.Good }
    ensures { GivesText (λ v. v.items) result (free.new, lines.new)
        (repeated_reading count (value_alone (with_multiplier V.kind by) file.now) (free.old, lines.old)) }
{
    let mut values = Vec::with_capacity(alloc, count as usize)?;
    let mut last = None;
    for _ in 0..count {
        let value = next_kept(alloc, free, lines, file, by, last)?;
        last = Some(value);
        values.push(value)?;
    }
    Ok(values)
}

/// A free list of numbers, each times the multiplier where there is one.
#[tactic(auto, unfolding(crate::specs::Arrays::free_list))]
pub fn free_list<V: Value>(
    alloc: Global,
    lines: &mut Lines<'_>,
    file: &str,
    by: Option<V>,
    count: u32,
) -> Result<Vec<V>, TextFault>
    requires by { IfSome by V.Good }
    ensures { GivesText (λ v. v.items) result lines.new (free_list (with_multiplier V.kind by) file.now count lines.old) }
{
    let mut free = Free::begin();
    values(alloc, &mut free, lines, file, by, count)
}

/// Reads `rows` free lists of `cols` values, as one list.
#[tactic(auto, unfolding(crate::specs::Arrays::free_rows))]
pub fn free_rows<V: Value>(
    alloc: Global,
    lines: &mut Lines<'_>,
    file: &str,
    by: Option<V>,
    rows: u32,
    cols: u32,
) -> Result<Vec<V>, TextFault>
    requires by { IfSome by V.Good }
    ensures { GivesText (λ v. v.items) result lines.new (free_rows (with_multiplier V.kind by) file.now rows cols lines.old) }
{
    let count = (rows as usize).saturating_mul(cols as usize);
    let mut values = Vec::with_capacity(alloc, count)?;
    for _ in 0..rows {
        let row = free_list(alloc, lines, file, by, cols)?;
        values.extend_from_slice(&row)?;
    }
    Ok(values)
}

/// `count` copies of one value.
pub fn constants<V: Copy>(alloc: Global, value: V, count: usize) -> Result<Vec<V>, AllocError>
    ensures { IfOk result (λ v. v.items ≡ replicate count value) }
{
    let mut values = Vec::new(alloc);
    for _ in 0..count {
        values.push(value)?;
    }
    Ok(values)
}

/// A list, and these numbers after it.
pub fn append(list: Listed<Dec>, more: &[Dec]) -> Result<Listed<Dec>, AllocError>
    ensures { IfOk result (λ l. l ≡ list ++ more.now) }
{
    let mut items = list.into_vec();
    items.extend_from_slice(more)?;
    Ok(Listed::new(items))
}
