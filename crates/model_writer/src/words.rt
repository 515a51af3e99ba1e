// Values as words of a line.
ghost use Rattle.std.specs.Prelude.{◌≡◌, ℕ, List, ◌++◌, decimal, IfOk};
ghost use Rattle.array_text.specs.{integer_word, number_word};

use decimal_input::dec::Dec;
use itoa::Buffer;
use std::alloc::AllocError;

/// A value that is one word of a line.
pub(crate) trait Word {
    ghost word: { Self → List ℕ };

    /// Appends the word.
    fn push_to(&self, bytes: &mut Vec<u8>) -> Result<(), AllocError>
        ensures { IfOk result (λ _. bytes.new.items ≡ bytes.old.items ++ word self.now) };
}

impl Word for usize {
    ghost word = { decimal };

    fn push_to(&self, bytes: &mut Vec<u8>) -> Result<(), AllocError> {
        let mut buffer = Buffer::new();
        bytes.extend_from_slice(buffer.format(*self).as_bytes())
    }
}

impl Word for i64 {
    ghost word = { integer_word };

    #[tactic(auto, unfolding(array_text::specs::Lines::integer_word))]
    fn push_to(&self, bytes: &mut Vec<u8>) -> Result<(), AllocError> {
        let mut buffer = Buffer::new();
        bytes.extend_from_slice(buffer.format(*self).as_bytes())
    }
}

impl Word for Dec {
    ghost word = { number_word };

    /// Appends the sign, the digits, and the exponent after an E.
    #[tactic(auto, unfolding(array_text::specs::Lines::number_word))]
    fn push_to(&self, bytes: &mut Vec<u8>) -> Result<(), AllocError> {
        if self.neg {
            bytes.push(b'-')?;
        }
        let mut digits = Buffer::new();
        bytes.extend_from_slice(digits.format(self.digits).as_bytes())?;
        bytes.push(b'E')?;
        let mut exponent = Buffer::new();
        bytes.extend_from_slice(exponent.format(self.exp).as_bytes())
    }
}
