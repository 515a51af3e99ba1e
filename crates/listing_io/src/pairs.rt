// Lines that have two numbers, written and read.
ghost use Rattle.std.specs.Prelude.{◌≡◌, ◌≤◌, ◌<◌, ◌^◌, ◌++◌, ◌⊎◌, MatchOption, IfOk, IfSome, nat_abs};
ghost use Rattle.fixed_text.specs.{fixed_text};
ghost use Rattle.listing_io.specs.Forms.{Form, IsForm, candidate, is_within, pair_in, pair_text};

use crate::digits::value_in;
use crate::words::{after_word, first_word, skip_bytes};
use budget_bounds::TermPair;
use fixed_text::push_fixed;
use std::alloc::AllocError;
use std::marker::Model;

/// The form of a line with two numbers: their decimals, their greatest magnitude, and the text after them.
#[derive(Drop)]
pub(crate) struct PairForm<'a> {
    pub places: u32,
    pub limit: u128,
    pub back: &'a [u8],
}

impl<'a> Model for PairForm<'a> {
    ghost Value = { Form };

    ghost view = { λ f. record { places = f.places; limit = f.limit; back = f.back.now } };
}

/// Writes two numbers and the text after them.
pub(crate) fn push_pair(
    text: &mut Vec<u8>,
    form: &PairForm,
    pair: TermPair,
) -> Result<(), AllocError>
    requires { IsForm form.now }
    ensures { IfOk result (λ _. text.new.items ≡ text.old.items ++ pair_text form.now pair) }
{
    push_fixed(text, form.places, pair.lo)?;
    text.push(b' ')?;
    push_fixed(text, form.places, pair.hi)?;
    text.extend_from_slice(form.back)?;
    Ok(())
}

#[tactic(auto, unfolding(crate::specs::Forms::candidate))]
fn candidate(front: &[u8], line: &[u8]) -> Option<TermPair>
    ensures { MatchOption result ((2 ^ 126 ≤ nat_abs (candidate front.now line.now).lo)
        ⊎ (2 ^ 126 ≤ nat_abs (candidate front.now line.now).hi)) (λ p. p ≡ candidate front.now line.now) }
{
    let numbers = skip_bytes(line, front.len());
    let lo = value_in(first_word(numbers))?;
    let hi = value_in(after_word(numbers))?;
    Some(TermPair { lo, hi })
}

fn is_within(form: &PairForm, pair: TermPair) -> bool
    ensures { result ≡ is_within form.now pair }
{
    pair.lo.unsigned_abs() <= form.limit && pair.hi.unsigned_abs() <= form.limit
}

/// The two numbers after the prefix `text`, if writing them gives exactly this line.
#[tactic(auto, unfolding(crate::specs::Forms::pair_in))]
pub(crate) fn pair_in(
    text: &mut Vec<u8>,
    form: &PairForm,
    line: &[u8],
) -> Result<Option<TermPair>, AllocError>
    requires { IsForm form.now }
    ensures pair { IfOk result (λ found. found ≡ pair_in text.old.items form.now line.now) }
    ensures lo { IfOk result (λ found. IfSome found (λ p. nat_abs p.lo ≤ form.now.limit)) }
    ensures hi { IfOk result (λ found. IfSome found (λ p. nat_abs p.hi ≤ form.now.limit)) }
{
    let Some(pair) = candidate(text.as_slice(), line) else {
        return Ok(None);
    };
    push_pair(text, form, pair)?;
    if is_within(form, pair) && text.as_slice() == line {
        Ok(Some(pair))
    } else {
        Ok(None)
    }
}
