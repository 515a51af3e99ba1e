ghost use Rattle.std.specs.Prelude.{◌≡◌};
ghost use Rattle.outside.specs.declared.codes.Code.TheVariants.{BadControl};
ghost use Rattle.record_lines.specs.{word_at, GivesText};
ghost use Rattle.outside.specs.{refusal};
ghost use Rattle.array_reader.specs.{keyword, format_at};

use outside::{Code, TextFault, text_fault};
use record_lines::{Words, is_word};
use std::alloc::Global;

/// The first word of a control record.
#[derive(Clone, Copy)]
pub enum Keyword {
    Constant,
    Internal,
    OpenClose,
    External,
    Other,
}

#[tactic(auto, unfolding(crate::specs::Control::keyword))]
pub fn keyword_of(word: &[u8]) -> Keyword
    ensures { result ≡ keyword word.now }
{
    if is_word(b"CONSTANT", word) {
        Keyword::Constant
    } else if is_word(b"INTERNAL", word) {
        Keyword::Internal
    } else if is_word(b"OPEN/CLOSE", word) {
        Keyword::OpenClose
    } else if is_word(b"EXTERNAL", word) {
        Keyword::External
    } else {
        Keyword::Other
    }
}

/// The next word of a control record.
#[tactic(auto, unfolding(record_lines::specs::Reading::word_at))]
pub fn next_word<'a>(
    alloc: Global,
    words: &mut Words<'a>,
    file: &str,
    line: u32,
) -> Result<&'a [u8], TextFault>
    ensures { GivesText (λ w. w.now) result words.new (word_at (refusal BadControl file.now line) words.old) }
{
    match words.next() {
        Some(word) => Ok(word),
        None => Err(text_fault(alloc, Code::BadControl, file, line)),
    }
}

/// The format, which is (FREE).
#[tactic(auto, unfolding(crate::specs::Control::format_at))]
pub fn format(alloc: Global, words: &mut Words, file: &str, line: u32) -> Result<bool, TextFault>
    ensures { GivesText (λ b. b) result words.new (format_at file.now line words.old) }
{
    let word = next_word(alloc, words, file, line)?;
    if is_word(b"(FREE)", word) {
        Ok(true)
    } else {
        Err(text_fault(alloc, Code::OutOfProfile, file, line))
    }
}
