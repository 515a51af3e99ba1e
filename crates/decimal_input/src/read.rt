// Reading a number.
ghost use Rattle.std.specs.Prelude.{IfOk};
ghost use Rattle.decimal_input.specs.{IsDec, number, decimal, Spelling, Spells, Names};
ghost use Rattle.decimal_input.specs.Fractions.{Same};

use crate::canonical::canonical;
use crate::coefficient::{NOTHING, with_digits};
use crate::dec::{Dec, NumFault};
use crate::word::{exponent, split_digits, split_part, split_sign};

// A longer word names no number.
const MOST_BYTES: usize = 64;

/// The number that a word names, or the first test that it fails: the grammar, the digits, the exponent.
pub fn read_dec(word: &[u8]) -> Result<Dec, NumFault>
    ensures exact { Names word.now result }
    ensures value { (n : Spelling) → Spells word.now n → IfOk result (λ d. Same (number d) (decimal n.neg n.coefficient n.exp)) }
    ensures canonical { IfOk result IsDec }
{
    if word.len() > MOST_BYTES {
        return Err(NumFault::BadNumber);
    }
    let (neg, body) = split_sign(word);
    let (whole, tail) = split_digits(body);
    let (part, tail) = split_part(tail);
    let Some(exp) = exponent(tail) else {
        return Err(NumFault::BadNumber);
    };
    if whole.len() + part.len() == 0 {
        return Err(NumFault::BadNumber);
    }
    let coefficient = with_digits(with_digits(NOTHING, whole), part);
    canonical(neg, coefficient, exp - part.len() as i32)
}
