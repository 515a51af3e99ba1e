ghost use Rattle.std.specs.Prelude.{◌≡◌, IfOk};
ghost use Rattle.decimal_input.specs.{IsDec};
ghost use Rattle.outside.specs.{IsRefusal};
ghost use Rattle.record_lines.specs.{GivesText};
ghost use Rattle.array_reader.specs.{number_at, number_code};
ghost use Rattle.array_reader.specs.Numbers as numbers;

use crate::numbers::Value;
use decimal_input::dec::{Dec, NumFault};
use outside::{Code, TextFault, text_fault};
use record_lines::Words;
use std::alloc::Global;

/// The refusal of a word that is no number.
pub fn number_refused(alloc: Global, fault: NumFault, file: &str, line: u32) -> TextFault
    ensures { IsRefusal (number_code fault) file.now line result }
{
    match fault {
        NumFault::BadNumber => text_fault(alloc, Code::BadNumber, file, line),
        NumFault::TooManyDigits => text_fault(alloc, Code::TooManyDigits, file, line),
    }
}

/// The next word of a line item as a number of this kind.
#[tactic(auto, unfolding(crate::specs::Control::number_at))]
pub fn value_item<V: Value>(
    alloc: Global,
    words: &mut Words,
    file: &str,
    line: u32,
) -> Result<V, TextFault>
    ensures value { GivesText (λ x. x) result words.new (number_at V.kind.reading file.now line words.old) }
    ensures good { IfOk result V.Good }
{
    let Some(word) = words.next() else {
        return Err(text_fault(alloc, Code::BadNumber, file, line));
    };
    match V::of_word(word) {
        Ok(value) => Ok(value),
        Err(fault) => Err(number_refused(alloc, fault, file, line)),
    }
}

/// The next word of a line item as an integer.
pub fn integer(alloc: Global, words: &mut Words, file: &str, line: u32) -> Result<i64, TextFault>
    ensures { GivesText (λ z. z) result words.new (number_at numbers.integer file.now line words.old) }
{
    value_item(alloc, words, file, line)
}

/// The next word of a line item as a number.
pub fn number(alloc: Global, words: &mut Words, file: &str, line: u32) -> Result<Dec, TextFault>
    ensures value { GivesText (λ d. d) result words.new (number_at numbers.number file.now line words.old) }
    ensures canonical { IfOk result IsDec }
{
    value_item(alloc, words, file, line)
}
