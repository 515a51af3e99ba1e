// The file of the layers' properties.
ghost use Rattle.std.specs.Prelude.{◌≡◌, ◌*◌, ◌<◌, ◌≤◌, ◌++◌, codes, IfOk};
ghost use Rattle.model_maker.specs.Files.{after, next_state, gap, hk_row, hk_text, layer_text, lpf_text, texts_below, drawn_number};

use fixed_text::push_number;
use std::alloc::{AllocError, Global};

/// The greatest HK.
const GREATEST: u64 = 9;

fn push_gap(text: &mut Vec<u8>, place: u64) -> Result<(), AllocError>
    ensures { IfOk result (λ _. text.new.items ≡ text.old.items ++ gap place) }
{
    if place > 0 {
        text.push(b' ')?;
    }
    Ok(())
}

fn push_hk(text: &mut Vec<u8>, draws: &mut Draws, place: u64) -> Result<(), AllocError>
    ensures text { IfOk result (λ _. text.new.items ≡ text.old.items ++ (gap place ++ hk_text draws.old.x)) }
    ensures next { IfOk result (λ _. draws.new.x ≡ next_state draws.old.x) }
{
    push_gap(text, place)?;
    let hk = 1 + draws.draw(GREATEST);
    push_number(text, u128::from(hk))
}

#[tactic(auto, using(crate::proofs::Texts::after_none, crate::proofs::Texts::no_text, crate::proofs::Texts::one_value, crate::proofs::Texts::next_value))]
fn push_hk_values(text: &mut Vec<u8>, draws: &mut Draws, count: u64) -> Result<(), AllocError>
    ensures text { IfOk result (λ _. text.new.items ≡ text.old.items ++ texts_below count (λ j. gap j ++ hk_text (after j draws.old.x))) }
    ensures next { IfOk result (λ _. draws.new.x ≡ after count draws.old.x) }
{
    for place in 0..count {
        push_hk(text, draws, place)?;
    }
    Ok(())
}

fn push_hk_row(text: &mut Vec<u8>, draws: &mut Draws, size: u64) -> Result<(), AllocError>
    ensures text { IfOk result (λ _. text.new.items ≡ text.old.items ++ hk_row size draws.old.x) }
    ensures next { IfOk result (λ _. draws.new.x ≡ after size draws.old.x) }
{
    push_hk_values(text, draws, size)?;
    text.push(b'\n')?;
    Ok(())
}

#[tactic(auto, using(crate::proofs::Texts::no_rows, crate::proofs::Texts::no_text, crate::proofs::Texts::one_row, crate::proofs::Texts::next_row))]
fn push_hk_rows(text: &mut Vec<u8>, draws: &mut Draws, size: u64) -> Result<(), AllocError>
    ensures text { IfOk result (λ _. text.new.items ≡ text.old.items ++ texts_below size (λ i. hk_row size (after (i * size) draws.old.x))) }
    ensures next { IfOk result (λ _. draws.new.x ≡ after (size * size) draws.old.x) }
{
    for _ in 0..size {
        push_hk_row(text, draws, size)?;
    }
    Ok(())
}

fn push_layer(text: &mut Vec<u8>, draws: &mut Draws, size: u64) -> Result<(), AllocError>
    ensures text { IfOk result (λ _. text.new.items ≡ text.old.items ++ layer_text size draws.old.x) }
    ensures next { IfOk result (λ _. draws.new.x ≡ after (size * size) draws.old.x) }
{
    text.extend_from_slice(b"INTERNAL 1 (FREE) -1\n")?;
    push_hk_rows(text, draws, size)?;
    text.extend_from_slice(b"CONSTANT 1\nCONSTANT 0.01\n")?;
    Ok(())
}

/// The file of LPF.
#[tactic(auto, using(crate::proofs::Texts::after_twice))]
pub(crate) fn lpf_text(alloc: Global, draws: &mut Draws, size: u64) -> Result<Vec<u8>, AllocError>
    ensures text { IfOk result (λ text. text.items ≡ lpf_text size draws.old.x) }
    ensures next { IfOk result (λ _. draws.new.x ≡ after (2 * (size * size)) draws.old.x) }
{
    let mut text = Vec::new(alloc);
    text.extend_from_slice(b"0 -1E+30 0\n0 0\n0 0\n1 1\n0 0\n0 0\n")?;
    push_layer(&mut text, draws, size)?;
    push_layer(&mut text, draws, size)?;
    Ok(text)
}

// The generator of the numbers of a made model.

/// The generator, with its state.
#[derive(Drop)]
pub(crate) struct Draws {
    pub(crate) x: u64,
    ghost small: { x < 2147483648 },
}

#[tactic(auto, unfolding(crate::specs::Files::next_state))]
fn next_state(x: u64) -> u64
    requires { x < 2147483648 }
    ensures value { result ≡ next_state x }
    ensures small { result < 2147483648 }
{
    (x * 1_103_515_245 + 12_345) % 2_147_483_648
}

impl Draws {
    /// Draws a number below n.
    pub(crate) fn draw(&mut self, n: u64) -> u64
        requires some { 0 < n }
        ensures number { result ≡ drawn_number n self.old.x }
        ensures below { result < n }
        ensures next { self.new.x ≡ next_state self.old.x }
    {
        self.x = next_state(self.x);
        self.x / 65_536 % n
    }
}
