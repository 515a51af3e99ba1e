// All files in one folder. The folder lists the last added file first.
ghost use Rattle.std.specs.Prelude.{◌≡◌, ◌≤◌, [], ◌∷◌, codes, IfOk, ◌<◌, ◌++◌};
ghost use Rattle.model_maker.specs.{bas_text, dis_text, file, made_files, made_name, nam_text, rch_text, riv_text, reach_text, texts_below, wel_text};

use crate::grids::{bas_text, dis_text};
use crate::properties::{Draws, lpf_text};
use fixed_text::push_number;
use outside::{FILE_LIMIT, MemFolder};
use std::alloc::{AllocError, Global};

/// The name of a made model's name file.
pub const NAME: &str = "m.nam";

const NAMES: &[u8] =
    b"DIS 11 m.dis\nBAS6 12 m.bas\nLPF 13 m.lpf\nWEL 14 m.wel\nRIV 15 m.riv\nRCH 16 m.rch\n";

const RECHARGE: &[u8] = b"3 0\n0\nCONSTANT 0.001\n";

fn add_stresses(
    alloc: Global,
    folder: &mut MemFolder,
    well: &[u8],
    size: u64,
) -> Result<(), AllocError>
    ensures { IfOk result (λ _. folder.new ≡ record folder.old {
      files = file (codes "m.wel") well.now ∷ file (codes "m.riv") (riv_text size) ∷ file (codes "m.rch") rch_text
          ∷ folder.old.files;
    }) }
{
    let river = riv_text(alloc, size)?;
    folder.add("m.rch", RECHARGE)?;
    folder.add("m.riv", river.as_slice())?;
    folder.add("m.wel", well)
}

fn add_layers(
    alloc: Global,
    folder: &mut MemFolder,
    properties: &[u8],
    size: u64,
) -> Result<(), AllocError>
    requires { 1 ≤ size }
    ensures { IfOk result (λ _. folder.new ≡ record folder.old {
      files = file made_name nam_text ∷ file (codes "m.dis") (dis_text size)
          ∷ file (codes "m.bas") (bas_text size) ∷ file (codes "m.lpf") properties.now ∷ folder.old.files;
    }) }
{
    let grid = dis_text(alloc, size)?;
    let heads = bas_text(alloc, size)?;
    folder.add("m.lpf", properties)?;
    folder.add("m.bas", heads.as_slice())?;
    folder.add("m.dis", grid.as_slice())?;
    folder.add(NAME, NAMES)
}

/// The files of the model made from a seed: two layers of `size` by `size` cells of 100 by 100 length units,
/// with hydraulic conductivities and a well that are drawn from the seed, given heads along the first column, a
/// river along the last one, recharge, and one transient period of four steps. No call of the folder fails.
#[tactic(auto, unfolding(crate::specs::Files::made_files))]
pub fn make(alloc: Global, seed: u32, size: u32) -> Result<MemFolder, AllocError>
    requires seed { seed ≤ 2147483647 }
    requires some { 1 ≤ size }
    requires few { size ≤ 64 }
    ensures { IfOk result (λ folder. folder ≡ record { files = made_files seed size; limit = 67108864; script = []; calls = 0; faults = 0 }) }
{
    let size = u64::from(size);
    let mut draws = Draws { x: u64::from(seed) };
    let properties = lpf_text(alloc, &mut draws, size)?;
    let well = wel_text(alloc, &mut draws, size)?;
    let mut folder = MemFolder::new(alloc, FILE_LIMIT);
    add_stresses(alloc, &mut folder, well.as_slice(), size)?;
    add_layers(alloc, &mut folder, properties.as_slice(), size)?;
    Ok(folder)
}

// The files of the well and of the river.

/// The greatest rate at which the well pumps.
const GREATEST_RATE: u64 = 500;

/// The file of WEL.
#[tactic(auto, unfolding(crate::specs::Files::after))]
pub(crate) fn wel_text(alloc: Global, draws: &mut Draws, size: u64) -> Result<Vec<u8>, AllocError>
    requires size { 1 ≤ size }
    ensures { IfOk result (λ text. text.items ≡ wel_text size draws.old.x) }
{
    let row = draws.draw(size);
    let column = draws.draw(size);
    let rate = draws.draw(GREATEST_RATE);
    let mut text = Vec::new(alloc);
    text.extend_from_slice(b"1 0\n1 0\n2 ")?;
    push_number(&mut text, u128::from(row) + 1)?;
    text.push(b' ')?;
    push_number(&mut text, u128::from(column) + 1)?;
    text.extend_from_slice(b" -")?;
    push_number(&mut text, u128::from(rate) + 1)?;
    text.push(b'\n')?;
    Ok(text)
}

fn push_reach(text: &mut Vec<u8>, size: u64, row: u64) -> Result<(), AllocError>
    ensures { IfOk result (λ _. text.new.items ≡ text.old.items ++ reach_text size row) }
{
    text.extend_from_slice(b"1 ")?;
    push_number(text, u128::from(row) + 1)?;
    text.push(b' ')?;
    push_number(text, u128::from(size))?;
    text.extend_from_slice(b" 9 50 8\n")?;
    Ok(())
}

#[tactic(auto, using(crate::proofs::Texts::no_text, crate::proofs::Texts::one_more))]
fn push_reaches(text: &mut Vec<u8>, size: u64) -> Result<(), AllocError>
    ensures { IfOk result (λ _. text.new.items ≡ text.old.items ++ texts_below size (reach_text size)) }
{
    for row in 0..size {
        push_reach(text, size, row)?;
    }
    Ok(())
}

/// The file of RIV.
pub(crate) fn riv_text(alloc: Global, size: u64) -> Result<Vec<u8>, AllocError>
    ensures { IfOk result (λ text. text.items ≡ riv_text size) }
{
    let mut text = Vec::new(alloc);
    push_number(&mut text, u128::from(size))?;
    text.extend_from_slice(b" 0\n")?;
    push_number(&mut text, u128::from(size))?;
    text.extend_from_slice(b" 0\n")?;
    push_reaches(&mut text, size)?;
    Ok(text)
}
