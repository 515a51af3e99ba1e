// The digits of a number, without its leading and trailing zeros.
ghost use Rattle.std.specs.Prelude.{◌≡◌, ℕ, ◌+◌, ◌*◌, ◌<◌, ◌≤◌, ◌^◌, length, slice_index, true};
ghost use Rattle.decimal_input.specs.{IsOf, number_from, is_digit};

/// A word with more digits than this names no number.
pub const LIMIT: u128 = 1_000_000_000_000_000_000;

// Digits below this number have room for one more.
const FEW: u64 = 100_000_000_000_000_000;

/// The digits so far and the number of zeros after them, or that there are more than 18 digits.
#[derive(Clone, Copy)]
pub struct Coefficient {
    pub digits: u64,
    pub zeros: u32,
    pub many: bool,
}

// The same number with one more digit.
fn with_digit(k: Coefficient, digit: u64) -> Coefficient
    requires digit { digit < 10 }
    requires digits { k.digits < 10 ^ 18 }
    requires room { k.zeros < 1000 }
    ensures value { (c : ℕ) → IsOf k c → IsOf result (c * 10 + digit) }
    ensures digits { result.digits < 10 ^ 18 }
    ensures room { result.zeros ≤ k.zeros + 1 }
{
    if k.many {
        return k;
    }
    if k.digits == 0 {
        return Coefficient {
            digits: digit,
            zeros: 0,
            many: false,
        };
    }
    if digit == 0 {
        return Coefficient {
            zeros: k.zeros + 1,
            ..k
        };
    }
    if k.zeros == 0 && k.digits < FEW {
        return Coefficient {
            digits: k.digits * 10 + digit,
            zeros: 0,
            many: false,
        };
    }
    if k.zeros >= 18 {
        return Coefficient { many: true, ..k };
    }
    let digits = k.digits as u128 * 10u128.pow(k.zeros + 1) + digit as u128;
    if digits < LIMIT {
        Coefficient {
            digits: digits as u64,
            zeros: 0,
            many: false,
        }
    } else {
        Coefficient { many: true, ..k }
    }
}

pub const NOTHING: Coefficient = Coefficient {
    digits: 0,
    zeros: 0,
    many: false,
};

// The same number with more digits after it.
pub fn with_digits(k: Coefficient, digits: &[u8]) -> Coefficient
    requires digits { (i : ℕ) → i < length digits.now → is_digit (slice_index digits.now i) ≡ true }
    requires few { k.digits < 10 ^ 18 }
    requires room { k.zeros + length digits.now ≤ 200 }
    ensures value { (c : ℕ) → IsOf k c → IsOf result (number_from c digits.now) }
    ensures few { result.digits < 10 ^ 18 }
    ensures room { result.zeros ≤ k.zeros + length digits.now }
{
    let mut so_far = k;
    for b in digits {
        so_far = with_digit(so_far, (*b - b'0') as u64);
    }
    so_far
}
