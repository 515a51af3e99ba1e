// The lines before entries.
ghost use Rattle.std.specs.Prelude.{◌≡◌};
ghost use Rattle.outside.specs.declared.codes.Code.TheVariants.{TooManyEntries};
ghost use Rattle.outside.specs.{refusal};
ghost use Rattle.record_lines.specs.{GivesText, HasText, numbered_of};
ghost use Rattle.list_package.specs.{item_line, count_of, has_parameters, header_of};

use array_reader::{integer, next_line, short_integer};
use model_types::Limits;
use outside::{Code, TextFault, text_fault};
use record_lines::{Line, Lines, Words, begins_with};
use std::alloc::Global;

/// Where a period's list comes from.
#[derive(Clone, Copy, PartialEq, Eq)]
pub enum Count {
    /// This many entries follow.
    Entries(u32),
    /// The list of the period before is used again.
    Again,
}

/// The first line of a file of stresses, which must not define parameters.
#[tactic(auto, unfolding(crate::specs::Headers::item_line))]
pub fn item_line<'a>(
    alloc: Global,
    lines: &mut Lines<'a>,
    file: &str,
) -> Result<Line<'a>, TextFault>
    ensures { GivesText numbered_of result lines.new (item_line file.now lines.old) }
{
    let line = next_line(alloc, lines, file)?;
    if begins_with(b"PARAMETER", &line) {
        return Err(text_fault(alloc, Code::OutOfProfile, file, line.number));
    }
    Ok(line)
}

fn count_of(
    alloc: Global,
    limits: Limits,
    itmp: i64,
    file: &str,
    line: u32,
) -> Result<Count, TextFault>
    ensures { HasText (λ c. c) result (count_of limits itmp (refusal TooManyEntries file.now line)) }
{
    if itmp > limits.entries() as i64 {
        return Err(text_fault(alloc, Code::TooManyEntries, file, line));
    }
    if itmp < 0 {
        Ok(Count::Again)
    } else {
        Ok(Count::Entries(itmp as u32))
    }
}

/// Whether the next word is an integer above 0.
fn has_parameters(words: &mut Words) -> bool
    ensures { result ≡ has_parameters words.old }
{
    match words.next() {
        None => false,
        Some(word) => match short_integer(word) {
            None => false,
            Some(number) => number > 0,
        },
    }
}

/// Where the list of a period comes from, by the words of its line; `listed` says whether there was a list before.
#[tactic(auto, unfolding(crate::specs::Headers::header_of))]
pub fn header_of(
    alloc: Global,
    limits: Limits,
    words: &mut Words,
    file: &str,
    line: u32,
    listed: bool,
) -> Result<Count, TextFault>
    ensures { HasText (λ c. c) result (header_of limits file.now line listed words.old) }
{
    let itmp = integer(alloc, words, file, line)?;
    let count = count_of(alloc, limits, itmp, file, line)?;
    if count == Count::Again && !listed {
        return Err(text_fault(alloc, Code::NothingToReuse, file, line));
    }
    if has_parameters(words) {
        return Err(text_fault(alloc, Code::OutOfProfile, file, line));
    }
    Ok(count)
}
