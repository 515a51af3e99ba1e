// A text of decks, cut into files.
ghost use Rattle.std.specs.Prelude.{◌≡◌, drop, false, true, MatchOption};
ghost use Rattle.outside.specs.{lines};
ghost use Rattle.record_lines.specs.{HasText, next_number};
ghost use Rattle.stated_text.specs.{cut_at, is_file_line, cut_after, begins_part, or_bad};

use crate::text_file::TextFile;
use outside::{Code, TextFault, good_name, text_fault};
use record_lines::cut_line;
use std::alloc::Global;

/// The number of the next line.
pub(crate) fn next_number(line: u32) -> u32
    ensures { result ≡ next_number line }
{
    if line < u32::MAX { line + 1 } else { line }
}

// The name in a line FILE.
fn name_in(line: &[u8]) -> Option<&str>
    ensures { MatchOption result (is_file_line line.entry.now ≡ false)
        (λ name. (is_file_line line.entry.now ≡ true) × (name.now ≡ drop 5 line.entry.now)) }
{
    if line.len() < 5 {
        return None;
    }
    let (word, name) = line.split_at(5);
    if word == b"FILE ".as_slice() {
        good_name(name)
    } else {
        None
    }
}

/// Whether a text begins with a line FILE.
#[tactic(auto, unfolding(outside::specs::Names::lines))]
pub(crate) fn begins_part(text: &[u8]) -> bool
    ensures { result ≡ begins_part (lines text.now) }
{
    if text.is_empty() {
        return false;
    }
    let (line, _) = cut_line(text);
    name_in(line).is_some()
}

// The files of the lines from this one on, up to the first line END, the first of which is begun.
fn cut_rest<'a>(
    alloc: Global,
    text: &str,
    begun: TextFile<'a>,
    bytes: &'a [u8],
    line: u32,
) -> Result<Vec<TextFile<'a>>, TextFault>
    ensures { HasText (λ files. files.items) result (or_bad text.now (cut_after begun.entry line (lines bytes.entry.now))) }
{
    let mut files = Vec::new(alloc);
    let mut last = begun;
    let mut left = bytes;
    let mut number = line;
    while !left.is_empty() {
        let (row, others) = cut_line(left);
        if row == b"END".as_slice() {
            files.push(last)?;
            return Ok(files);
        }
        if let Some(name) = name_in(row) {
            files.push(last)?;
            last = TextFile::new(alloc, name, number);
        } else {
            last.add(row)?;
        }
        left = others;
        number = next_number(number);
    }
    Err(text_fault(alloc, Code::BadListing, text, number))
}

/// The files of a text, from this line on, up to its first line END. Otherwise the first line that is another one than the line
/// that is due is refused as BadListing of the text: the first one, if it is no line FILE; or the one after the last, where the line END lacks.
#[tactic(auto, unfolding(outside::specs::Names::lines))]
pub(crate) fn cut<'a>(
    alloc: Global,
    text: &str,
    bytes: &'a [u8],
    line: u32,
) -> Result<Vec<TextFile<'a>>, TextFault>
    ensures { HasText (λ files. files.items) result (or_bad text.now (cut_at line (lines bytes.entry.now))) }
{
    if bytes.is_empty() {
        return Err(text_fault(alloc, Code::BadListing, text, line));
    }
    let (row, others) = cut_line(bytes);
    match name_in(row) {
        Some(name) => cut_rest(
            alloc,
            text,
            TextFile::new(alloc, name, line),
            others,
            next_number(line),
        ),
        None => Err(text_fault(alloc, Code::BadListing, text, line)),
    }
}
