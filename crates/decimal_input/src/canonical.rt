// The canonical form of a number.
ghost use Rattle.std.specs.Prelude.{ℕ, ◌<◌, ◌≤◌, ◌^◌, ℤ, pos, neg_ℤ, ◌≤ℤ◌, IfOk};
ghost use Rattle.decimal_input.specs.{IsOf, IsCanonical, IsDec};

use crate::coefficient::Coefficient;
use crate::dec::{Dec, NumFault};

const LEAST_EXPONENT: i32 = -40;

const GREATEST_EXPONENT: i32 = 40;

// The canonical form of the digits times 10 ^ exp, or its refusal.
pub fn canonical(neg: bool, k: Coefficient, exp: i32) -> Result<Dec, NumFault>
    requires few { k.digits < 10 ^ 18 }
    requires room { k.zeros ≤ 200 }
    requires above { neg_ℤ (pos 100000) ≤ℤ exp }
    requires below { exp ≤ℤ pos 100000 }
    ensures exact { (c : ℕ) → IsOf k c → IsCanonical neg c exp result }
    ensures number { (c : ℕ) → IsOf k c → IfOk result IsDec }
{
    if k.many {
        return Err(NumFault::TooManyDigits);
    }
    if k.digits == 0 {
        return Ok(Dec {
            neg: false,
            digits: 0,
            exp: 0,
        });
    }
    let exp = exp + k.zeros as i32;
    if exp < LEAST_EXPONENT {
        Err(NumFault::BadNumber)
    } else if exp > GREATEST_EXPONENT {
        Err(NumFault::BadNumber)
    } else {
        Ok(Dec {
            neg,
            digits: k.digits,
            exp: exp as i16,
        })
    }
}
