// The type of 18-digit decimals.

/// The value m * 10 ^ e, which isn't negative: m has 18 digits, or is zero, and then e is zero too.
#[derive(Clone, Copy)]
pub struct Sd {
    pub m: u64,
    pub e: i16,
}

pub const ZERO: Sd = Sd { m: 0, e: 0 };

/// The least number of 18 digits.
pub(crate) const LEAST: u64 = 100_000_000_000_000_000;

/// The least number of 19 digits.
pub(crate) const LIMIT: u64 = 1_000_000_000_000_000_000;
