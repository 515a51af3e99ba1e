// The text of a made model's summary.
ghost use Rattle.std.specs.Prelude.{◌≡◌, ◌++◌, [], ◌∷◌, codes, IfOk};
ghost use Rattle.listing_io.specs.{numbers_text};
ghost use Rattle.listing_summary.specs.{count_line, head_line, summary_text};

use crate::summary::Summary;
use fixed_text::{push_fixed, push_number};
use std::alloc::{AllocError, Global};

fn push_count(text: &mut Vec<u8>, n: u64) -> Result<(), AllocError>
    ensures { IfOk result (λ _. text.new.items ≡ text.old.items ++ numbers_text (n ∷ [])) }
{
    text.push(b' ')?;
    push_number(text, u128::from(n))
}

fn push_count_line(text: &mut Vec<u8>, word: &[u8], n: u64) -> Result<(), AllocError>
    ensures { IfOk result (λ _. text.new.items ≡ text.old.items ++ count_line word.now (n ∷ [])) }
{
    text.extend_from_slice(word)?;
    push_count(text, n)?;
    text.push(b'\n')?;
    Ok(())
}

fn push_head_line(text: &mut Vec<u8>, word: &[u8], head: i128) -> Result<(), AllocError>
    ensures { IfOk result (λ _. text.new.items ≡ text.old.items ++ head_line word.now head) }
{
    text.extend_from_slice(word)?;
    text.push(b' ')?;
    push_fixed(text, 9, head)?;
    text.push(b'\n')?;
    Ok(())
}

fn push_title(text: &mut Vec<u8>, seed: u32, size: u32) -> Result<(), AllocError>
    ensures { IfOk result (λ _. text.new.items ≡ text.old.items ++ count_line (codes "MADE") (seed ∷ size ∷ [])) }
{
    text.extend_from_slice(b"MADE")?;
    push_count(text, u64::from(seed))?;
    push_count(text, u64::from(size))?;
    text.push(b'\n')?;
    Ok(())
}

/// The summary of the model that is made of a seed, with this number of rows and of columns.
#[tactic(auto, unfolding(crate::specs::Summaries::summary_text))]
pub fn write_summary(
    alloc: Global,
    seed: u32,
    size: u32,
    summary: &Summary,
) -> Result<Vec<u8>, AllocError>
    ensures { IfOk result (λ text. text.items ≡ summary_text seed size summary.now) }
{
    let mut text = Vec::new(alloc);
    push_title(&mut text, seed, size)?;
    push_count_line(&mut text, b"STEPS", summary.steps)?;
    push_count_line(&mut text, b"HEADS", summary.heads)?;
    push_head_line(&mut text, b"WIDEST", summary.widest)?;
    push_head_line(&mut text, b"LOWSUM", summary.low_sum)?;
    push_head_line(&mut text, b"HIGHSUM", summary.high_sum)?;
    text.extend_from_slice(b"END\n")?;
    Ok(text)
}
