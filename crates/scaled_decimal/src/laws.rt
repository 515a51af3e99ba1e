// Laws of rounding.
ghost use Rattle.scaled_decimal.specs.{RoundedIsNearest, RoundingsKeepOrder, UnitsAreWhole};

/// Rounding keeps the order of numbers. So a sum, a product or a quotient of lesser operands, of a quotient a lesser
/// dividend and a greater divisor, is not rounded to a greater decimal.
#[tactic(auto, using(crate::proofs::Monotone::roundings_keep_order))]
pub fn roundings_keep_order()
    ensures { RoundingsKeepOrder }
{}

/// A rounded number is the one nearest decimal of 18 digits on its side; numbers of units are floors and ceilings.
#[tactic(auto, using(crate::proofs::Rounded::rounded_is_nearest, crate::proofs::Rounded::units_are_whole))]
pub fn rounded_is_nearest()
    ensures decimals { RoundedIsNearest }
    ensures units { UnitsAreWhole }
{}
