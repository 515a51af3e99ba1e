// Words of the lines before arrays.
ghost use Rattle.record_lines.specs.{GivesText, HasText};
ghost use Rattle.period_arrays.specs.{flag_at, flag_if, flags_of, option_at};

use array_reader::integer;
use outside::{Code, TextFault, text_fault};
use record_lines::Words;
use std::alloc::Global;

/// Which arrays a package's file has for each period, beside its rates.
#[derive(Clone, Copy)]
pub struct Contents {
    /// Surfaces and extinction depths.
    pub evaporates: bool,
    /// Layers.
    pub layered: bool,
}

/// Which arrays of a period are read anew. The others are those of the period before.
#[derive(Clone, Copy)]
pub struct ArraysReadAnew {
    pub surface: bool,
    pub rate: bool,
    pub depth: bool,
    pub layer: bool,
}

/// The option that chooses a cell in each column of layers, from 1 to 3; any other is OutOfProfile.
#[tactic(auto, unfolding(crate::specs::Areas::option_at))]
pub fn option_at(alloc: Global, words: &mut Words, file: &str, line: u32) -> Result<i64, TextFault>
    ensures { GivesText (λ z. z) result words.new (option_at file.now line words.old) }
{
    let option = integer(alloc, words, file, line)?;
    if option < 1 || option > 3 {
        return Err(text_fault(alloc, Code::OutOfProfile, file, line));
    }
    Ok(option)
}

/// Whether an array is read anew, by the next word. If it isn't, there must be an array before it.
#[tactic(auto, unfolding(crate::specs::Areas::flag_at))]
pub fn flag_at(
    alloc: Global,
    words: &mut Words,
    file: &str,
    line: u32,
    listed: bool,
) -> Result<bool, TextFault>
    ensures { GivesText (λ b. b) result words.new (flag_at file.now line listed words.old) }
{
    let flag = integer(alloc, words, file, line)?;
    if flag < 0 && !listed {
        return Err(text_fault(alloc, Code::NothingToReuse, file, line));
    }
    Ok(flag >= 0)
}

/// A flag that a file has only where it has the array.
fn flag_if(
    alloc: Global,
    words: &mut Words,
    present: bool,
    file: &str,
    line: u32,
    listed: bool,
) -> Result<bool, TextFault>
    ensures { GivesText (λ b. b) result words.new (flag_if present file.now line listed words.old) }
{
    if present {
        flag_at(alloc, words, file, line, listed)
    } else {
        Ok(false)
    }
}

/// The flags of a period by the words of its line; `listed` says whether there was a period before.
#[tactic(auto, unfolding(crate::specs::Areas::flags_of))]
pub fn flags_of(
    alloc: Global,
    words: &mut Words,
    contents: Contents,
    file: &str,
    line: u32,
    listed: bool,
) -> Result<ArraysReadAnew, TextFault>
    ensures { HasText (λ f. f) result (flags_of contents file.now line listed words.old) }
{
    let surface = flag_if(alloc, words, contents.evaporates, file, line, listed)?;
    let rate = flag_at(alloc, words, file, line, listed)?;
    let depth = flag_if(alloc, words, contents.evaporates, file, line, listed)?;
    let layer = flag_if(alloc, words, contents.layered, file, line, listed)?;
    Ok(ArraysReadAnew {
        surface,
        rate,
        depth,
        layer,
    })
}
