// A text compared with the one that is due.
ghost use Rattle.std.specs.Prelude.{◌≡◌, drop, false, true, Ok, Err, MatchOption, MatchResult};
ghost use Rattle.stated_text.specs.{after_byte, after_due, first_is};

use crate::cutting::next_number;

// What follows the first byte of a text, if it is this one.
fn after_first(byte: u8, text: &[u8]) -> Option<&[u8]>
    ensures { MatchOption result (first_is byte text.entry.now ≡ false) (λ rest. (first_is byte text.entry.now ≡ true) × (rest.now ≡ drop 1 text.entry.now)) }
{
    let (first, others) = text.split_first()?;
    if *first == byte { Some(others) } else { None }
}

// The number of the line after a byte.
fn after_byte(number: u32, byte: u8) -> u32
    ensures { result ≡ after_byte number byte }
{
    if byte == b'\n' {
        next_number(number)
    } else {
        number
    }
}

/// What follows in a text, from this line on, after one that is due at its beginning, and the number of its first line; or the
/// number of the first line that differs.
#[tactic(auto, using(crate::proofs::DueTexts::due_ends, crate::proofs::DueTexts::due_goes, crate::proofs::DueTexts::due_stops))]
pub(crate) fn after_due<'a>(text: &'a [u8], due: &[u8], line: u32) -> Result<(&'a [u8], u32), u32>
    ensures { MatchResult result (λ after. after_due line text.entry.now due.now ≡ Ok (after.0.now, after.1))
        (λ n. after_due line text.entry.now due.now ≡ Err n) }
{
    let mut left = text;
    let mut number = line;
    for byte in due {
        let Some(others) = after_first(*byte, left) else {
            return Err(number);
        };
        left = others;
        number = after_byte(number, *byte);
    }
    Ok((left, number))
}
