// The exact product of two numbers.
ghost use Rattle.std.specs.Prelude.{◌+◌, ◌*◌, ◌<◌, ◌≤◌, ◌^◌, ◌+ℤ◌, IfOk};
ghost use Rattle.decimal_input.specs.{IsDec, number, IsOf, IsCanonical, differ};
ghost use Rattle.decimal_input.specs.Fractions.{times as product_of, Same};

use crate::canonical::canonical;
use crate::coefficient::{Coefficient, LIMIT, NOTHING};
use crate::dec::{Dec, NumFault};

// The digits of n, and the number of zeros after them.
#[tactic(auto, using(crate::proofs::Zeros::zeros_few, crate::proofs::Zeros::zero_off))]
fn trim_zeros(n: u128) -> Coefficient
    ensures value { IsOf result n }
    ensures few { result.digits < 10 ^ 18 }
    ensures room { result.zeros ≤ 39 }
{
    if n == 0 {
        return NOTHING;
    }
    let mut rest = n;
    let mut zeros: u32 = 0;
    while rest % 10 == 0 {
        rest /= 10;
        zeros += 1;
    }
    if rest < LIMIT {
        Coefficient {
            digits: rest as u64,
            zeros,
            many: false,
        }
    } else {
        Coefficient {
            digits: 0,
            zeros,
            many: true,
        }
    }
}

/// The product, or the first test that it fails: the digits, the exponent.
pub fn times(a: Dec, b: Dec) -> Result<Dec, NumFault>
    requires first { IsDec a }
    requires second { IsDec b }
    ensures exact { IsCanonical (differ a.neg b.neg) (a.digits * b.digits) (a.exp +ℤ b.exp) result }
    ensures value { IfOk result (λ d. Same (number d) (product_of (number a) (number b))) }
    ensures canonical { IfOk result IsDec }
{
    let product = trim_zeros(a.digits as u128 * b.digits as u128);
    canonical(a.neg != b.neg, product, a.exp as i32 + b.exp as i32)
}
