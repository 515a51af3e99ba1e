ghost use Rattle.std.specs.Prelude.{◌≡◌, IfOk, MatchResult, Ok};
ghost use Rattle.outside.specs.{IsGoodName};
ghost use Rattle.record_lines.specs.{HasText, StopsText, numbered_of};
ghost use Rattle.name_file.specs.{is_integer, file_in, after_line, after_lines, names_of};

use crate::kinds::{is_passed_over, package_of};
use crate::names::{Gathered, Names};
use crate::package::Package;
use array_reader::{name_of, short_integer};
use outside::{Code, Name, TextFault, text_fault};
use record_lines::{Line, Lines, Words, is_comment};
use std::alloc::Global;

/// Whether a word is an integer.
#[tactic(auto, unfolding(crate::specs::Reading::is_integer))]
fn is_integer(word: &[u8]) -> bool
    ensures { result ≡ is_integer word.now }
{
    short_integer(word).is_some()
}

/// The file's name on a package's line, from the words after the first.
#[tactic(auto, unfolding(crate::specs::Reading::file_in, record_lines::specs::Reading::word_at))]
fn file_in<'a>(
    alloc: Global,
    words: &mut Words<'a>,
    file: &str,
    line: u32,
) -> Result<&'a str, TextFault>
    ensures name { HasText (λ name. name.now) result (file_in file.now line words.old) }
    ensures good { IfOk result (λ name. IsGoodName name.now) }
{
    let Some(unit) = words.next() else {
        return Err(text_fault(alloc, Code::BadNameLine, file, line));
    };
    let Some(name) = words.next() else {
        return Err(text_fault(alloc, Code::BadNameLine, file, line));
    };
    if !is_integer(unit) {
        return Err(text_fault(alloc, Code::BadNameLine, file, line));
    }
    name_of(alloc, name, file, line)
}

/// Adds the package that a line names, if it names one.
#[tactic(auto, unfolding(crate::specs::Reading::after_line, crate::specs::Reading::after_package))]
fn after_line(alloc: Global, names: &mut Gathered, line: &Line, file: &str) -> Result<(), TextFault>
    ensures { MatchResult result
        (λ _. after_line file.now (numbered_of line.now) names.old ≡ Ok names.new)
        (λ fault. StopsText fault (after_line file.now (numbered_of line.now) names.old)) }
{
    if is_comment(line.bytes) {
        return Ok(());
    }
    let mut words = Words::of(line);
    let Some(kind) = words.next() else {
        return Ok(());
    };
    if is_passed_over(kind) {
        return Ok(());
    }
    let Some(found) = package_of(kind) else {
        return Err(text_fault(alloc, Code::UnsupportedPackage, file, line.number));
    };
    let name = file_in(alloc, &mut words, file, line.number)?;
    if names.has(found) {
        return Err(text_fault(alloc, Code::DuplicatePackage, file, line.number));
    }
    let name = Name::new(alloc, name)?;
    names.add(found, name)?;
    Ok(())
}

/// Adds the packages that the lines name.
fn after_lines(
    alloc: Global,
    names: &mut Gathered,
    lines: &mut Lines,
    file: &str,
) -> Result<(), TextFault>
    ensures { MatchResult result
        (λ _. after_lines file.now lines.old.lines names.old ≡ Ok names.new)
        (λ fault. StopsText fault (after_lines file.now lines.old.lines names.old)) }
{
    while let Ok(line) = lines.next_line() {
        after_line(alloc, names, &line, file)?;
    }
    Ok(())
}

/// The packages that a name file names, in its order. `file` is its own name, for refusals.
/// The first line that is wrong is refused; a missing package is refused with line 0.
#[tactic(auto, unfolding(crate::specs::Reading::names_of, crate::specs::Reading::whole))]
pub fn read_names(alloc: Global, file: &str, bytes: &[u8]) -> Result<Names, TextFault>
    ensures names { HasText (λ names. names) result (names_of file.now bytes.now) }
{
    let mut files = Gathered::new(alloc);
    let mut lines = Lines::new(bytes);
    after_lines(alloc, &mut files, &mut lines, file)?;
    if !files.has(Package::Dis) || !files.has(Package::Bas) || !files.has(Package::Lpf) {
        return Err(text_fault(alloc, Code::MissingPackage, file, 0));
    }
    Ok(Names { files })
}
