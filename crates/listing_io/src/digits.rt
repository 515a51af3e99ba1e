// The number in a word's digits.
ghost use Rattle.std.specs.Prelude.{◌≡◌, ◌≤◌, ◌<◌, ◌^◌, MatchOption, nat_abs};
ghost use Rattle.listing_io.specs.{digits_behind, is_negative, value_of, with_byte};

const LIMIT: u128 = 1 << 126;

// A number from here on reaches the limit with one more digit, and ten times it need not fit its type.
const FULL: u128 = 1 << 124;

fn next_number(number: u128, byte: u8) -> Option<u128>
    requires { number < 2 ^ 126 }
    ensures { MatchOption result (2 ^ 126 ≤ with_byte number byte) (λ n. (n ≡ with_byte number byte) × (n < 2 ^ 126)) }
{
    if !byte.is_ascii_digit() {
        return Some(number);
    }
    if number >= FULL {
        return None;
    }
    let next = number * 10 + u128::from(byte - b'0');
    if next < LIMIT { Some(next) } else { None }
}

fn number_in(word: &[u8]) -> Option<u128>
    ensures { MatchOption result (2 ^ 126 ≤ digits_behind 0 word.now) (λ n. (n ≡ digits_behind 0 word.now) × (n < 2 ^ 126)) }
{
    let mut number = 0;
    for byte in word {
        match next_number(number, *byte) {
            Some(next) => number = next,
            None => return None,
        }
    }
    Some(number)
}

fn is_negative(word: &[u8]) -> bool
    ensures { result ≡ is_negative word.now }
{
    match word.first() {
        Some(byte) => *byte == b'-',
        None => false,
    }
}

/// The number in a word's digits, if it is below 2^126 in magnitude.
pub(crate) fn value_in(word: &[u8]) -> Option<i128>
    ensures { MatchOption result (2 ^ 126 ≤ nat_abs (value_of word.now)) (λ z. (z ≡ value_of word.now) × (nat_abs z < 2 ^ 126)) }
{
    let number = number_in(word)? as i128;
    if is_negative(word) {
        Some(-number)
    } else {
        Some(number)
    }
}
