// What is written is read as itself. Each law is the contract of an empty function.
ghost use Rattle.array_text.specs.{WordsReadAsWritten, LinesReadAsWritten, FreeListsReadAsWritten, ArraysReadAsWritten, WordsHaveForm, ListsHaveForm};
ghost use Rattle.array_text.specs.{ArraysHaveForm};

/// A number's word is read as that number, and an integer's word as that integer.
#[tactic(auto, using(crate::proofs::NumberTexts::words_read))]
pub fn words_read_as_written()
    ensures { WordsReadAsWritten }
{}

/// A line has the words that were written on it, and a text the lines, each with its number.
#[tactic(auto, using(crate::proofs::LineTexts::lines_read))]
pub fn lines_read_as_written()
    ensures { LinesReadAsWritten }
{}

/// A free list on one line is read as its values.
#[tactic(auto, using(crate::proofs::ArrayTexts::free_lists))]
pub fn free_lists_read_as_written()
    ensures { FreeListsReadAsWritten }
{}

/// An array with its control record is read as its values.
#[tactic(auto, using(crate::proofs::ArrayTexts::arrays_read_back))]
pub fn arrays_read_as_written()
    ensures { ArraysReadAsWritten }
{}

/// A number that is read is in canonical form, and an integer has at most 18 digits.
#[tactic(auto, using(crate::proofs::NumberForms::words_are))]
pub fn words_have_form()
    ensures { WordsHaveForm }
{}

/// A free list that is read has as many values as it asked for.
#[tactic(auto, using(crate::proofs::ArrayForms::list_files_have_form))]
pub fn lists_have_form()
    ensures { ListsHaveForm }
{}

/// An array that is read has a value for each place.
#[tactic(auto, using(crate::proofs::ArrayForms::array_files_have_form))]
pub fn arrays_have_form()
    ensures { ArraysHaveForm }
{}
