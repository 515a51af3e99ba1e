// Free lists whose values must be 0.
ghost use Rattle.std.specs.Prelude.{◌≡◌};
ghost use Rattle.record_lines.specs.{GivesText};
ghost use Rattle.array_reader.specs.{zero_at, zero_list};

use crate::next_value;
use outside::{Code, TextFault, text_fault};
use record_lines::{Free, Lines};
use std::alloc::Global;

/// The next value of a free list, which must be 0; any other value is OutOfProfile on its own line.
#[tactic(auto, unfolding(crate::specs::Arrays::zero_at))]
pub fn zero_item<'a>(
    alloc: Global,
    free: &mut Free<'a>,
    lines: &mut Lines<'a>,
    file: &str,
) -> Result<i64, TextFault>
    ensures { GivesText (λ z. z) result (free.new, lines.new) (zero_at file.now (free.old, lines.old)) }
{
    let (value, line) = next_value::<i64>(alloc, free, lines, file, None)?;
    if value != 0 {
        return Err(text_fault(alloc, Code::OutOfProfile, file, line));
    }
    Ok(value)
}

/// Reads a free list of `count` values that must be 0.
#[tactic(auto, unfolding(crate::specs::Arrays::zero_list, crate::specs::Arrays::zero_step))]
pub fn zero_list(
    alloc: Global,
    lines: &mut Lines<'_>,
    file: &str,
    count: u32,
) -> Result<(), TextFault>
    ensures { GivesText (λ _. tt) result lines.new (zero_list file.now count lines.old) }
{
    let mut free = Free::begin();
    for i in 0..count {
        zero_item(alloc, &mut free, lines, file)?;
    }
    Ok(())
}
