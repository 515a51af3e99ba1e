ghost use Rattle.std.specs.Prelude.{◌≡◌, ◌≤◌, [], ◌∷◌, length, All, IfOk, MatchResult, Ok};
ghost use Rattle.outside.specs.{IsGoodName};
ghost use Rattle.record_lines.specs.{HasText, StopsText, numbered_of};
ghost use Rattle.batch_list.specs.{entries, entry_at, names_in, with_entries};

use array_reader::name_of;
use outside::{Code, Name, TextFault, text_fault};
use record_lines::{Line, Lines, Words, is_comment};
use std::alloc::Global;

/// The most names of a list.
const MOST_NAMES: usize = 1_000;

/// Adds the first word of a line as a name.
#[tactic(auto, unfolding(crate::specs::Names::refusal_of, record_lines::specs::Reading::name_at))]
fn after_word(
    alloc: Global,
    names: &mut Vec<Name>,
    word: &[u8],
    file: &str,
    line: u32,
) -> Result<(), TextFault>
    requires few { length names.old.items ≤ 1000 }
    requires good { All IsGoodName names.old.items }
    ensures few { length names.new.items ≤ 1000 }
    ensures good { All IsGoodName names.new.items }
    ensures names { MatchResult result
        (λ _. with_entries file.now names.old.items (entry_at line word.now ∷ []) ≡ Ok names.new.items)
        (λ fault. StopsText fault (with_entries file.now names.old.items (entry_at line word.now ∷ []))) }
{
    let name = name_of(alloc, word, file, line)?;
    if names.len() >= MOST_NAMES {
        return Err(text_fault(alloc, Code::TooManyEntries, file, line));
    }
    let name = Name::new(alloc, name)?;
    names.push(name)?;
    Ok(())
}

/// Adds the name of a line, if it has one.
#[tactic(auto, unfolding(crate::specs::Names::entry_of))]
fn after_line(
    alloc: Global,
    names: &mut Vec<Name>,
    line: &Line,
    file: &str,
) -> Result<(), TextFault>
    requires few { length names.old.items ≤ 1000 }
    requires good { All IsGoodName names.old.items }
    ensures few { length names.new.items ≤ 1000 }
    ensures good { All IsGoodName names.new.items }
    ensures names { MatchResult result
        (λ _. with_entries file.now names.old.items (entries (numbered_of line.now ∷ [])) ≡ Ok names.new.items)
        (λ fault. StopsText fault (with_entries file.now names.old.items (entries (numbered_of line.now ∷ [])))) }
{
    if is_comment(line.bytes) {
        return Ok(());
    }
    match Words::of(line).next() {
        None => Ok(()),
        Some(word) => after_word(alloc, names, word, file, line.number),
    }
}

/// Adds the names of the lines.
fn after_lines(
    alloc: Global,
    names: &mut Vec<Name>,
    lines: &mut Lines,
    file: &str,
) -> Result<(), TextFault>
    requires few { length names.old.items ≤ 1000 }
    requires good { All IsGoodName names.old.items }
    ensures few { length names.new.items ≤ 1000 }
    ensures good { All IsGoodName names.new.items }
    ensures names { MatchResult result
        (λ _. with_entries file.now names.old.items (entries lines.old.lines) ≡ Ok names.new.items)
        (λ fault. StopsText fault (with_entries file.now names.old.items (entries lines.old.lines))) }
{
    while let Ok(line) = lines.next_line() {
        after_line(alloc, names, &line, file)?;
    }
    Ok(())
}

/// The names of a list, in its order: the first word of each line, but of lines that begin with '#'. A name is there
/// as often as in the list. There are at most 1,000. `file` is the list's own name, for refusals, which are of the first
/// line that is wrong: BadName for a word that is no file's name, TooManyEntries for the 1,001st name.
#[tactic(auto, unfolding(crate::specs::Names::names_in))]
pub fn read_list(alloc: Global, file: &str, bytes: &[u8]) -> Result<Vec<Name>, TextFault>
    ensures names { HasText (λ names. names.items) result (names_in file.now bytes.now) }
    ensures few { IfOk result (λ names. length names.items ≤ 1000) }
    ensures good { IfOk result (λ names. All IsGoodName names.items) }
{
    let mut names = Vec::new(alloc);
    let mut lines = Lines::new(bytes);
    after_lines(alloc, &mut names, &mut lines, file)?;
    Ok(names)
}
