// Numbers of words and their products, by the functions that define them.
ghost use Rattle.std.specs.Prelude.{◌≡◌, IfOk, IfSome};
ghost use Rattle.decimal_input.specs.{IsDec, integer_of};
ghost use Rattle.array_reader.specs.Numbers.{Kind, product, real, whole, with_multiplier, multiplied_value};

use decimal_input::dec::{Dec, NumFault};
use decimal_input::product::times;
use decimal_input::read::read_dec;
use decimal_input::word::read_int;

fn real_product(a: Dec, b: Dec) -> Result<Dec, NumFault>
    requires first { IsDec a }
    requires second { IsDec b }
    ensures { result ≡ product a b }
{
    times(a, b)
}

/// The integer of a word: an optional sign and 1 to 18 digits. None where it has another form.
pub fn short_integer(word: &[u8]) -> Option<i64>
    ensures { result ≡ integer_of word.now }
{
    read_int(word)
}

/// A kind of number that an array may have.
pub trait Value: Copy {
    ghost kind: { Kind Self };

    // What each value keeps: for a number its canonical form.
    ghost Good: { Self → Type 0 };

    fn of_word(word: &[u8]) -> Result<Self, NumFault>
        ensures value { result ≡ kind.reading word.now }
        ensures good { IfOk result Good };

    /// The value times a multiplier; unchanged where the multiplier is zero.
    fn scale(self, by: Self) -> Result<Self, NumFault>
        requires value { Good self }
        requires by { Good by }
        ensures { result ≡ kind.scaling by self };
}

impl Value for Dec {
    ghost kind = { real };

    ghost Good = { IsDec };

    fn of_word(word: &[u8]) -> Result<Dec, NumFault> {
        read_dec(word)
    }

    #[tactic(auto, unfolding(crate::specs::Numbers::scaled_value))]
    fn scale(self, by: Dec) -> Result<Dec, NumFault> {
        if by.digits == 0 {
            Ok(self)
        } else {
            real_product(self, by)
        }
    }
}

impl Value for i64 {
    ghost kind = { whole };

    ghost Good = { λ _. Unit {0} };

    #[tactic(auto, unfolding(crate::specs::Numbers::integer))]
    fn of_word(word: &[u8]) -> Result<i64, NumFault> {
        match short_integer(word) {
            Some(value) => Ok(value),
            None => Err(NumFault::BadNumber),
        }
    }

    #[tactic(auto, unfolding(crate::specs::Numbers::integer_scaled, crate::specs::Numbers::integer_product))]
    fn scale(self, by: i64) -> Result<i64, NumFault> {
        if by == 0 {
            return Ok(self);
        }
        match self.checked_mul(by) {
            Some(product) => Ok(product),
            None => Err(NumFault::BadNumber),
        }
    }
}

/// The value of a word, times the multiplier where there is one.
#[tactic(auto, unfolding(crate::specs::Numbers::multiplied_value))]
pub fn value_of<V: Value>(word: &[u8], by: Option<V>) -> Result<V, NumFault>
    requires by { IfSome by V.Good }
    ensures { result ≡ with_multiplier V.kind by word.now }
{
    let value = V::of_word(word)?;
    match by {
        None => Ok(value),
        Some(by) => value.scale(by),
    }
}
