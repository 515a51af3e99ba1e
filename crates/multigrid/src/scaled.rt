// Inner products, and their quotients, for conjugate gradients in whole numbers.
use crate::numbers::{clamp_long, shift, width};

/// A number times a power of two.
#[derive(Clone, Copy)]
pub struct Scaled {
    number: i128,
    exponent: u32,
}

/// Quotients are in units of 2^-20.
const PLACES: i64 = 20;

// No quotient is above 2^40, in those units.
const GREATEST: i64 = 1_099_511_627_776;

fn width_of_all(xs: &[i64]) -> u32 {
    let all = xs.iter().fold(0_u64, |all, x| all | x.unsigned_abs());
    64_u32.saturating_sub(all.leading_zeros())
}

fn width_of_all_long(xs: &[i128]) -> u32 {
    let all = xs.iter().fold(0_u128, |all, x| all | x.unsigned_abs());
    128_u32.saturating_sub(all.leading_zeros())
}

/// The inner product, by the leading 44 and 60 bits.
pub fn inner_product(xs: &[i64], ys: &[i128]) -> Scaled {
    let by = width_of_all(xs).saturating_sub(44);
    let of = width_of_all_long(ys).saturating_sub(60);
    let mut number = 0_i128;
    for (x, y) in xs.iter().zip(ys) {
        let product = (x.wrapping_shr(by) as i128).wrapping_mul(y.wrapping_shr(of));
        number = number.wrapping_add(product);
    }
    Scaled {
        number,
        exponent: by.saturating_add(of),
    }
}

impl Scaled {
    pub const ZERO: Scaled = Scaled {
        number: 0,
        exponent: 0,
    };

    pub fn is_positive(self) -> bool {
        self.number > 0
    }

    /// The quotient in units of 2^-20, cut off at 2^40; 0 if the divisor is not above 0.
    pub fn over(self, divisor: Scaled) -> i64 {
        let dropped = width(divisor.number).saturating_sub(60);
        let by = divisor.number.wrapping_shr(dropped);
        if by <= 0 {
            return 0;
        }
        let raised = 120_u32.saturating_sub(width(self.number));
        let quotient = self
            .number
            .wrapping_shl(raised)
            .checked_div(by)
            .unwrap_or(0);
        let places = PLACES
            .saturating_add(self.exponent as i64)
            .saturating_sub(raised as i64)
            .saturating_sub(divisor.exponent as i64)
            .saturating_sub(dropped as i64);
        clamp_long(shift(quotient, places)).clamp(-GREATEST, GREATEST)
    }
}

/// A multiple of a number, by a factor in units of 2^-20.
pub fn times(factor: i64, x: i128) -> i128 {
    if width(x) < 80 {
        (factor as i128).wrapping_mul(x).wrapping_shr(20)
    } else {
        (factor as i128).wrapping_mul(x.wrapping_shr(20))
    }
}
