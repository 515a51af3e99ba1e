// The files of the grid, of IBOUND and of STRT.
ghost use Rattle.std.specs.Prelude.{◌≡◌, ◌-◌, ◌≤◌, ◌++◌, codes, IfOk};
ghost use Rattle.model_maker.specs.{bas_text, dis_text, ibound_row, texts_below};

use fixed_text::push_number;
use std::alloc::{AllocError, Global};

/// The file of DIS.
pub(crate) fn dis_text(alloc: Global, size: u64) -> Result<Vec<u8>, AllocError>
    ensures { IfOk result (λ text. text.items ≡ dis_text size) }
{
    let mut text = Vec::new(alloc);
    text.extend_from_slice(b"2 ")?;
    push_number(&mut text, u128::from(size))?;
    text.push(b' ')?;
    push_number(&mut text, u128::from(size))?;
    text.extend_from_slice(
        b" 1 4 2\n0 0\nCONSTANT 100\nCONSTANT 100\nCONSTANT 20\nCONSTANT 10\nCONSTANT 0\n4 4 1 TR\n",
    )?;
    Ok(text)
}

#[tactic(auto, using(crate::proofs::Texts::no_text, crate::proofs::Texts::one_more))]
fn push_ones(text: &mut Vec<u8>, count: u64) -> Result<(), AllocError>
    ensures { IfOk result (λ _. text.new.items ≡ text.old.items ++ texts_below count (λ j. codes " 1")) }
{
    for _ in 0..count {
        text.extend_from_slice(b" 1")?;
    }
    Ok(())
}

fn push_ibound_row(text: &mut Vec<u8>, size: u64) -> Result<(), AllocError>
    requires { 1 ≤ size }
    ensures { IfOk result (λ _. text.new.items ≡ text.old.items ++ ibound_row size) }
{
    text.extend_from_slice(b"-1")?;
    push_ones(text, size - 1)?;
    text.push(b'\n')?;
    Ok(())
}

#[tactic(auto, using(crate::proofs::Texts::no_text, crate::proofs::Texts::one_more))]
fn push_ibound_rows(text: &mut Vec<u8>, size: u64) -> Result<(), AllocError>
    requires { 1 ≤ size }
    ensures { IfOk result (λ _. text.new.items ≡ text.old.items ++ texts_below size (λ i. ibound_row size)) }
{
    for _ in 0..size {
        push_ibound_row(text, size)?;
    }
    Ok(())
}

/// The file of BAS6.
pub(crate) fn bas_text(alloc: Global, size: u64) -> Result<Vec<u8>, AllocError>
    requires { 1 ≤ size }
    ensures { IfOk result (λ text. text.items ≡ bas_text size) }
{
    let mut text = Vec::new(alloc);
    text.extend_from_slice(b"FREE\nINTERNAL 1 (FREE) -1\n")?;
    push_ibound_rows(&mut text, size)?;
    text.extend_from_slice(b"CONSTANT 1\n-999.99\nCONSTANT 10\nCONSTANT 10\n")?;
    Ok(text)
}
