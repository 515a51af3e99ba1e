ghost use Rattle.std.specs.Prelude.{IfErr, IfSome, MatchResult, Ok, Err, true, false, nat_lt, ◌<◌, ◌≡◌, []};
ghost use Rattle.std.specs.Option.{option_map};
ghost use Rattle.record_lines.specs.Spread.{Left, Yields, count, spread, Taking, beginning, next_word, next_value};

use crate::cuts::star_at;
use crate::lines::{Lines, Words};
use std::marker::Model;

/// Why a free list has no next value.
#[derive(Clone, Copy)]
pub enum FreeFault {
    /// No line with a word is left; the line after the last one.
    EndOfFile(u32),
    /// On this line: a wrong repeat count, or a count without a value after it.
    BadNumber(u32),
}

/// A repeat count: one to nine digits, not all of them zero.
#[tactic(auto, using(crate::proofs::SpreadLemmas::below_all))]
fn count_of(digits: &[u8]) -> Option<u32>
    ensures value { result ≡ count digits.now }
    ensures positive { IfSome result (λ n. 0 < n) }
{
    if digits.len() > 9 {
        return None;
    }
    let mut value = 0;
    for digit in digits {
        if *digit < b'0' || *digit > b'9' {
            return None;
        }
        value = value * 10 + (*digit - b'0') as u32;
    }
    if value == 0 { None } else { Some(value) }
}

/// A word's count and value: `r*c` is c, r times; any other word is itself, once.
#[tactic(auto, using(crate::proofs::SpreadLemmas::plain_word, crate::proofs::SpreadLemmas::counted_word, crate::proofs::SpreadLemmas::uncounted_word, crate::proofs::SpreadLemmas::empty_value))]
fn spread(word: &[u8]) -> Option<(u32, &[u8])>
    ensures value { option_map (λ x. (x.0, x.1.now)) result ≡ spread word.now }
    ensures positive { IfSome result (λ x. 0 < x.0) }
{
    let Some(at) = star_at(word) else {
        return Some((1, word));
    };
    let (digits, rest) = word.split_at(at);
    let (_, value) = rest.split_at(1);
    let Some(count) = count_of(digits) else {
        return None;
    };
    if value.is_empty() {
        None
    } else {
        Some((count, value))
    }
}

/// A free list as it is read: the last word, how often it is still to be taken, and the words of its line after it.
#[derive(Drop)]
pub struct Free<'a> {
    repeat: u32,
    word: &'a [u8],
    number: u32,
    words: Words<'a>,
}

impl<'a> Model for Free<'a> {
    ghost Value = { Taking };

    ghost view = { λ f. record { repeat = f.repeat; word = f.word.now; number = f.number; words = f.words } };
}

impl<'a> Free<'a> {
    /// A list that begins on the next line.
    pub fn begin() -> Free<'a>
        ensures { result ≡ beginning }
    {
        Free {
            repeat: 0,
            word: &[],
            number: 0,
            words: Words::of_bytes(&[]),
        }
    }

    /// Moves to the next word, on a later line if this one has none left. After a fault the list has not
    /// advanced.
    fn start(&mut self, lines: &mut Lines<'a>) -> Result<(), FreeFault>
        requires none_left { self.old.repeat ≡ 0 }
        ensures word { MatchResult result
            (λ _. (next_word self.old.number self.old.words lines.old.lines lines.old.end ≡ Ok (self.new, lines.new)) × (0 < self.new.repeat))
            (λ fault. next_word self.old.number self.old.words lines.old.lines lines.old.end ≡ Err fault) }
        ensures stays { IfErr result (λ fault. (next_word self.new.number self.new.words lines.new.lines lines.new.end ≡ Err fault) × (self.new.repeat ≡ 0)) }
    {
        loop {
            let in_front = self.words.same();
            if let Some(word) = self.words.next() {
                let Some((count, value)) = spread(word) else {
                    self.words = in_front;
                    return Err(FreeFault::BadNumber(self.number));
                };
                self.repeat = count;
                self.word = value;
                return Ok(());
            }
            match lines.next_line() {
                Ok(line) => {
                    self.number = line.number;
                    self.words = Words::of(&line);
                }
                Err(end) => return Err(FreeFault::EndOfFile(end.line)),
            }
        }
    }

    /// The next value, and the number of its line. After a fault every later call returns the same fault.
    #[tactic(auto, unfolding(crate::specs::Spread::next_value))]
    pub fn next(&mut self, lines: &mut Lines<'a>) -> Result<(&'a [u8], u32), FreeFault>
        ensures value { Yields (λ x. (x.0.now, x.1)) result (self.new, lines.new) (next_value self.old lines.old) }
        ensures again { IfErr result (λ fault. next_value self.new lines.new ≡ Err fault) }
    {
        if self.repeat == 0 {
            self.start(lines)?;
        }
        self.repeat -= 1;
        Ok((self.word, self.number))
    }

    /// Whether the next value is one more repeat of the last word; if so, it is taken.
    #[tactic(auto, unfolding(crate::specs::Spread::next_value))]
    pub fn repeats(&mut self) -> bool
        ensures taken { result ≡ true → (left : Left) → next_value self.old left ≡ Ok ((self.old.word, self.old.number), (self.new, left)) }
        ensures word { self.new.word ≡ self.old.word }
        ensures exact { result ≡ nat_lt 0 self.old.repeat }
        ensures kept { result ≡ false → self.new ≡ self.old }
    {
        if self.repeat == 0 {
            return false;
        }
        self.repeat -= 1;
        true
    }
}
