// The parts of a number's word.
ghost use Rattle.std.specs.Prelude.{◌≡◌, ℕ, ◌+◌, ◌<◌, ◌≤◌, length, slice_index, true, min, ℤ, pos, neg_ℤ, ◌≤ℤ◌, IfSome, ◌↔◌, ◌^◌, Some};
ghost use Rattle.decimal_input.specs.{is_negative, without_sign, digits_of, after_digits, digits_after_point, behind_part, is_digit, is_mark, exponent_of};
ghost use Rattle.decimal_input.specs.{number_from, IsInteger, integer_of, IsCapped};

// The sign, and what follows it.
pub fn split_sign(word: &[u8]) -> (bool, &[u8])
    ensures sign { result.0 ≡ is_negative word.now }
    ensures rest { result.1.now ≡ without_sign word.now }
    ensures len { length result.1.now ≤ length word.now }
{
    match word {
        [b'-', rest @ ..] => (true, rest),
        [b'+', rest @ ..] => (false, rest),
        _ => (false, word),
    }
}

// The digits at the front, and what follows them.
#[tactic(auto, using(crate::proofs::Parts::front_is, crate::proofs::Parts::front_taken, crate::proofs::Parts::front_dropped))]
pub fn split_digits(word: &[u8]) -> (&[u8], &[u8])
    ensures digits { result.0.now ≡ digits_of word.now }
    ensures rest { result.1.now ≡ after_digits word.now }
    ensures all { (i : ℕ) → i < length result.0.now → is_digit (slice_index result.0.now i) ≡ true }
    ensures len { length result.0.now + length result.1.now ≡ length word.now }
{
    for (i, b) in word.iter().enumerate() {
        if !digit_byte(*b) {
            return word.split_at(i);
        }
    }
    word.split_at(word.len())
}

// The digits after a point, and what follows them.
pub fn split_part(word: &[u8]) -> (&[u8], &[u8])
    ensures digits { result.0.now ≡ digits_after_point word.now }
    ensures rest { result.1.now ≡ behind_part word.now }
    ensures all { (i : ℕ) → i < length result.0.now → is_digit (slice_index result.0.now i) ≡ true }
    ensures len { length result.0.now + length result.1.now ≤ length word.now }
{
    match word {
        [b'.', rest @ ..] => split_digits(rest),
        _ => (&word[..0], word),
    }
}

// One byte of a number's word.

pub fn digit_byte(b: u8) -> bool
    ensures { result ≡ is_digit b }
{
    48 <= b && b <= 57
}

pub fn is_exponent_letter(b: u8) -> bool
    ensures { result ≡ is_mark b }
{
    b == b'E' || b == b'e' || b == b'D' || b == b'd'
}

// The exponent of a number's word.

// A word has too few digits to bring such an exponent back into the range.
const CAP: u32 = 10000;

// The number that the digits spell, at most 10000: a greater one gives 10000.
fn capped_number(digits: &[u8]) -> u32
    requires { (i : ℕ) → i < length digits.now → is_digit (slice_index digits.now i) ≡ true }
    ensures { result ≡ min (number_from 0 digits.now) 10000 }
{
    let mut so_far: u32 = 0;
    for b in digits {
        so_far = (so_far * 10 + (*b - b'0') as u32).min(CAP);
    }
    so_far
}

// The exponent, its magnitude capped, or None where the bytes spell no exponent.
pub fn exponent(tail: &[u8]) -> Option<i32>
    ensures capped { IsCapped result (exponent_of tail.now) }
    ensures near { IfSome result (λ e. (neg_ℤ (pos 10000) ≤ℤ e) × (e ≤ℤ pos 10000)) }
{
    match tail {
        [] => Some(0),
        [mark, rest @ ..] => {
            if !is_exponent_letter(*mark) {
                return None;
            }
            let (neg, body) = split_sign(rest);
            let (digits, behind) = split_digits(body);
            if digits.is_empty() || !behind.is_empty() {
                return None;
            }
            let size = capped_number(digits) as i32;
            Some(if neg { -size } else { size })
        }
    }
}

// Whole numbers of the input.

// The number that at most 18 digits spell.
fn short_number(digits: &[u8]) -> u64
    requires digits { (i : ℕ) → i < length digits.now → is_digit (slice_index digits.now i) ≡ true }
    requires few { length digits.now ≤ 18 }
    ensures value { result ≡ number_from 0 digits.now }
    ensures bound { result < 10 ^ 18 }
{
    let mut so_far: u64 = 0;
    for b in digits {
        so_far = so_far * 10 + (*b - b'0') as u64;
    }
    so_far
}

// The integer of a word, by its parts.
fn integer(word: &[u8]) -> Option<i64>
    ensures value { result ≡ integer_of word.now }
{
    let (neg, body) = split_sign(word);
    let (digits, behind) = split_digits(body);
    if digits.is_empty() || digits.len() > 18 || !behind.is_empty() {
        return None;
    }
    let size = short_number(digits) as i64;
    Some(if neg { -size } else { size })
}

/// The integer that a word spells: an optional sign and 1 to 18 digits. None where it has another form.
pub fn read_int(word: &[u8]) -> Option<i64>
    ensures exact { (z : ℤ) → (result ≡ Some z) ↔ IsInteger word.now z }
{
    integer(word)
}
