// Laws of numbers. Each is the contract of an empty function.
ghost use Rattle.decimal_input.specs.{FloorsAndCeilingsEnclose, FloorsKeepOrder, CeilingsKeepOrder, OneCanonicalForm, WordsNameOneThing, OperationsKeepOrder};
ghost use Rattle.decimal_input.specs.{BoundsHoldOverADenominator};

/// A number lies between its floor and its ceiling, in units of any size.
pub fn floors_and_ceilings_enclose()
    ensures { FloorsAndCeilingsEnclose }
{}

/// A greater number has no lesser floor.
#[tactic(auto, using(crate::proofs::FloorLaws::floor_monotone))]
pub fn floors_keep_order()
    ensures { FloorsKeepOrder }
{}

/// A greater number has no lesser ceiling.
#[tactic(auto, using(crate::proofs::FloorLaws::ceiling_monotone))]
pub fn ceilings_keep_order()
    ensures { CeilingsKeepOrder }
{}

/// Two canonical forms of one number are the same.
#[tactic(auto, using(crate::proofs::Unique::one_number))]
pub fn one_canonical_form()
    ensures { OneCanonicalForm }
{}

/// A word names one number, or one fault.
#[tactic(auto, using(crate::proofs::Unique::names_one))]
pub fn words_name_one_thing()
    ensures { WordsNameOneThing }
{}

/// Sums, products and quotients of numbers that are not negative keep their order.
pub fn operations_keep_order()
    ensures { OperationsKeepOrder }
{}

/// Whole bounds of a fraction are bounds of it over any other denominator.
pub fn bounds_hold_over_a_denominator()
    ensures { BoundsHoldOverADenominator }
{}
