ghost use Rattle.std.specs.Prelude.{◌≡◌};
ghost use Rattle.record_lines.specs.{GivesText};
ghost use Rattle.array_reader.specs.{free_list, number, integer};

use crate::lists::free_list;
use decimal_input::dec::Dec;
use outside::TextFault;
use record_lines::Lines;
use std::alloc::Global;

/// Reads `count` integers, without a control record.
pub fn plain_ints(
    alloc: Global,
    lines: &mut Lines,
    file: &str,
    count: u32,
) -> Result<Vec<i64>, TextFault>
    ensures { GivesText (λ v. v.items) result lines.new (free_list integer file.now count lines.old) }
{
    free_list(alloc, lines, file, None, count)
}

/// Reads `count` numbers, without a control record.
pub fn plain_reals(
    alloc: Global,
    lines: &mut Lines,
    file: &str,
    count: u32,
) -> Result<Vec<Dec>, TextFault>
    ensures { GivesText (λ v. v.items) result lines.new (free_list number file.now count lines.old) }
{
    free_list(alloc, lines, file, None, count)
}
