// A number of the input.

/// The value digits * 10 ^ exp, with its sign. In canonical form `digits` has at most 18 digits and no trailing
/// zero, `exp` is from -40 to 40, and zero is `{ false, 0, 0 }`.
#[derive(Clone, Copy, PartialEq, Eq)]
pub struct Dec {
    pub digits: u64,
    pub exp: i16,
    pub neg: bool,
}

/// Why a word or a product is no number: its form or its exponent, or more than 18 digits.
#[derive(Clone, Copy, Debug)]
pub enum NumFault {
    BadNumber,
    TooManyDigits,
}
