ghost use Rattle.std.specs.Prelude.{◌≡◌, IfOk};
ghost use Rattle.record_lines.specs.{HasText};
ghost use Rattle.array_reader.specs.{control_at, control_of, Has_good};

use crate::items::value_item;
use crate::keyword::{Keyword, format, keyword_of, next_word};
use crate::line_items::name_of;
use crate::numbers::Value;
use outside::{Code, TextFault, text_fault};
use record_lines::Words;
use std::alloc::Global;

/// The record that precedes an array.
#[derive(Drop)]
pub enum Control<'a, V> {
    /// Every value.
    Constant(V),
    /// Values on the next lines, and their multiplier.
    Internal(V),
    /// Values in a file of this name, and their multiplier.
    Named(&'a str, V),
}

/// The control record that these words make.
#[tactic(auto, unfolding(crate::specs::Control::control_at))]
pub fn control_record<'a, V: Value>(
    alloc: Global,
    words: &mut Words<'a>,
    file: &str,
    line: u32,
) -> Result<Control<'a, V>, TextFault>
    ensures record { HasText control_of result (control_at V.kind.reading file.now line words.old) }
    ensures good { IfOk result (Has_good V.Good) }
{
    let word = next_word(alloc, words, file, line)?;
    match keyword_of(word) {
        Keyword::Constant => Ok(Control::Constant(value_item(alloc, words, file, line)?)),
        Keyword::Internal => {
            let by = value_item(alloc, words, file, line)?;
            format(alloc, words, file, line)?;
            Ok(Control::Internal(by))
        }
        Keyword::OpenClose => {
            let word = next_word(alloc, words, file, line)?;
            let name = name_of(alloc, word, file, line)?;
            let by = value_item(alloc, words, file, line)?;
            format(alloc, words, file, line)?;
            Ok(Control::Named(name, by))
        }
        Keyword::External => Err(text_fault(alloc, Code::OutOfProfile, file, line)),
        Keyword::Other => Err(text_fault(alloc, Code::BadControl, file, line)),
    }
}
