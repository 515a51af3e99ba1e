// Powers of ten.

ghost use Rattle.std.specs.Prelude.{◌≡◌, ◌*◌, ◌/◌, ◌^◌, ◌≤◌, ◌<◌};

use crate::decimal::LIMIT;

/// A power of ten and its exponent.
#[derive(Clone, Copy)]
pub(crate) struct Power {
    pub unit: u128,
    pub places: u32,
}

pub(crate) const ONE: Power = Power { unit: 1, places: 0 };

pub(crate) const TEN: Power = Power {
    unit: 10,
    places: 1,
};

// 10^17
const PRODUCT_UNIT: u128 = 100_000_000_000_000_000;

// 2^120 / 10^17, rounded down.
const PRODUCT_INVERSE: u128 = 13_292_279_957_849_158_729;

// q / 10^17. A product takes less time than a division of 128 bits. It is too small by two at most.
fn over_product_unit(q: u128) -> u128
    requires { q < 2 ^ 120 }
    ensures { result ≡ q / 10 ^ 17 }
{
    let head = (q / (1 << 56)) as u64;
    let mut front = head as u128 * PRODUCT_INVERSE / (1 << 64);
    let mut rest = q - front * PRODUCT_UNIT;
    while rest >= PRODUCT_UNIT {
        rest -= PRODUCT_UNIT;
        front += 1;
    }
    front
}

impl Power {
    /// q over the power, rounded down, without a division of 128 bits after a product or a sum of equal exponents.
    pub(crate) fn quotient(self, q: u128) -> u64
        requires power { self.unit ≡ 10 ^ self.places }
        requires most { q < 10 ^ 19 * self.unit }
        ensures { result ≡ q / self.unit }
    {
        match self.places {
            0 => q as u64,
            17 => over_product_unit(q) as u64,
            _ => (q / self.unit) as u64,
        }
    }
}

#[tactic(auto, using(decimal_input::proofs::Powers::power_within))]
pub(crate) fn power_of_ten(places: u32) -> Power
    requires within { places ≤ 38 }
    ensures power { result.unit ≡ 10 ^ places }
    ensures places { result.places ≡ places }
{
    Power {
        unit: 10u128.pow(places),
        places,
    }
}

/// The power of ten by which q is divided to leave 18 digits.
#[tactic(auto, using(crate::proofs::Between::places_below))]
pub(crate) fn behind_18_digits(q: u128) -> Power
    requires digits { 10 ^ 17 ≤ q }
    ensures power { result.unit ≡ 10 ^ result.places }
    ensures few { result.places < 22 }
    ensures least { 10 ^ 17 * result.unit ≤ q }
    ensures greatest { q < 10 ^ 18 * result.unit }
{
    let rest = q / LIMIT as u128;
    let mut unit: u128 = 1;
    let mut places: u32 = 0;
    while unit <= rest {
        unit *= 10;
        places += 1;
    }
    Power { unit, places }
}
