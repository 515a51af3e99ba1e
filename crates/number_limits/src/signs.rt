// Signs of numbers.
ghost use Rattle.std.specs.Prelude.{◌≡◌, ◌↔◌, IsTrue, All};
ghost use Rattle.std.specs.List.{list_all};
ghost use Rattle.decimal_input.specs.{IsDec};
ghost use Rattle.model_types.specs.{IsPositive, number_one};
ghost use Rattle.number_limits.specs.{is_positive, is_one};

use decimal_input::dec::Dec;

/// Whether a number is above 0.
#[tactic(auto, using(crate::proofs::SignLemmas::positive_of, crate::proofs::SignLemmas::positive_is))]
pub fn is_positive(value: Dec) -> bool
    ensures value { result ≡ is_positive value }
    ensures means { IsDec value → (IsTrue result ↔ IsPositive value) }
{
    !value.neg && value.digits > 0
}

/// Whether a number is 1.
#[tactic(auto, using(crate::proofs::SignLemmas::one_of, crate::proofs::SignLemmas::one_is))]
pub fn is_one(value: Dec) -> bool
    ensures value { result ≡ is_one value }
    ensures means { IsTrue result ↔ (value ≡ number_one) }
{
    !value.neg && value.digits == 1 && value.exp == 0
}

fn each_positive(values: &[Dec]) -> bool
    ensures { IsTrue result ↔ All (λ d. IsTrue (is_positive d)) values.now }
{
    values.iter().all(|d| is_positive(*d))
}

/// Whether all numbers are above 0.
pub fn all_positive(values: &[Dec]) -> bool
    ensures { result ≡ list_all is_positive values.now }
{
    each_positive(values)
}
