ghost use Rattle.std.specs.Prelude.{◌≡◌, IfOk};
ghost use Rattle.outside.specs.{IsGoodName};
ghost use Rattle.record_lines.specs.{line_at, name_at, GivesText, HasText, numbered_of};

use outside::{Code, TextFault, good_name, text_fault};
use record_lines::{Line, Lines};
use std::alloc::Global;

/// The next line that has a word; EndOfFile where there is none.
#[tactic(auto, unfolding(record_lines::specs::Reading::line_at))]
pub fn next_line<'a>(
    alloc: Global,
    lines: &mut Lines<'a>,
    file: &str,
) -> Result<Line<'a>, TextFault>
    ensures { GivesText numbered_of result lines.new (line_at file.now lines.old) }
{
    match lines.next_line() {
        Ok(line) => Ok(line),
        Err(end) => Err(text_fault(alloc, Code::EndOfFile, file, end.line)),
    }
}

/// A word as the name of a file; BadName where it can't be one.
pub fn name_of<'a>(
    alloc: Global,
    word: &'a [u8],
    file: &str,
    line: u32,
) -> Result<&'a str, TextFault>
    ensures name { HasText (λ name. name.now) result (name_at file.now line word.now) }
    ensures good { IfOk result (λ name. IsGoodName name.now) }
{
    match good_name(word) {
        Some(name) => Ok(name),
        None => Err(text_fault(alloc, Code::BadName, file, line)),
    }
}
