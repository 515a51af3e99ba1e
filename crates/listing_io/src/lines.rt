// The lines of a listing.
ghost use Rattle.std.specs.Prelude.{◌≡◌, ◌∷◌, [], MatchResult, IfOk};
ghost use Rattle.outside.specs.{lines};
ghost use Rattle.record_lines.specs.{next_number};
ghost use Rattle.listing_io.specs.Reading.{Gives, Has, Left, ReadsOrStops, all_lines, line_at, over_at, text_at};

use crate::fault::Fault;
use record_lines::cut_line;
use std::marker::Model;

/// The lines of a text that are still to be read, including blank ones.
#[derive(Drop)]
pub struct AllLines<'a> {
    rest: &'a [u8],
    number: u32,
}

impl<'a> Model for AllLines<'a> {
    ghost Value = { Left };

    ghost view = { λ l. record { lines = lines l.rest.now; number = l.number } };
}

fn next_number(number: u32) -> u32
    ensures { result ≡ next_number number }
{
    if number < u32::MAX {
        number + 1
    } else {
        number
    }
}

impl<'a> AllLines<'a> {
    pub fn new(text: &'a [u8]) -> AllLines<'a>
        ensures { result ≡ all_lines text.now }
    {
        AllLines {
            rest: text,
            number: 1,
        }
    }

    /// The number of the next line.
    pub fn number(&self) -> u32
        ensures { result ≡ self.now.number }
    {
        self.number
    }

    /// The next line.
    #[tactic(auto, unfolding(outside::specs::Names::lines))]
    pub fn take(&mut self) -> Result<&'a [u8], Fault>
        ensures { Gives (λ line. line.now) result self.new (line_at self.old) }
    {
        if self.rest.is_empty() {
            return Err(Fault::BadLine(self.number));
        }
        let (line, rest) = cut_line(self.rest);
        self.rest = rest;
        self.number = next_number(self.number);
        Ok(line)
    }

    /// Skips the next line, which must be this one.
    #[tactic(auto, unfolding(crate::specs::Reading::text_at))]
    pub fn expect(&mut self, text: &[u8]) -> Result<(), Fault>
        ensures { ReadsOrStops result self.new (text_at text.now self.old) }
    {
        let number = self.number();
        let line = self.take()?;
        if text == line {
            Ok(())
        } else {
            Err(Fault::BadLine(number))
        }
    }

    /// Tests that no line is left.
    #[tactic(auto, using(crate::proofs::Ends::has_a_line), unfolding(outside::specs::Names::lines))]
    pub fn end(&self) -> Result<(), Fault>
        ensures { Has (λ done. done) result (over_at self.now) }
    {
        if self.rest.is_empty() {
            Ok(())
        } else {
            Err(Fault::BadLine(self.number))
        }
    }
}
