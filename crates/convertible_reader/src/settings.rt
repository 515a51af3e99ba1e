// The first line, and the lists by layer.
ghost use Rattle.std.specs.Prelude.{◌≡◌};
ghost use Rattle.outside.specs.{words};
ghost use Rattle.record_lines.specs.{GivesText, repeated_reading};
ghost use Rattle.convertible_reader.specs.{changes_vertical, has_option, laytyp_at, laytyp_list, option_line, settings_of};

use array_reader::{
    has_keyword, integer, next_line, next_value, number, plain_ints, plain_reals, zero_list,
};
use decimal_input::dec::Dec;
use model_types::Listed;
use outside::{Code, TextFault, text_fault};
use record_lines::{Free, Line, Lines, Words};
use std::alloc::Global;

/// The options of the first line: whether SS is a storage coefficient, and whether a LAYTYP below 0 has a meaning of its own.
#[derive(Clone, Copy)]
pub struct Options {
    pub coefficient: bool,
    pub thickstrt: bool,
}

/// LAYTYP, CHANI and LAYVKA, by layer.
#[derive(Drop)]
pub struct LayerSettings {
    pub laytyp: Listed<i64>,
    pub chani: Listed<Dec>,
    pub layvka: Listed<i64>,
}

/// Whether a word of a line is this keyword, in any letter case.
fn has_option(keyword: &[u8], line: &Line) -> bool
    ensures { result ≡ has_option keyword.now (words line.now.bytes.now) }
{
    has_keyword(keyword, &mut Words::of(line))
}

/// Whether an option of a line changes vertical branches.
fn changes_vertical(line: &Line) -> bool
    ensures { result ≡ changes_vertical line.now.bytes.now }
{
    has_option(b"CONSTANTCV", line)
        || has_option(b"NOCVCORRECTION", line)
        || has_option(b"NOVFC", line)
}

/// The first line: there are no parameters, and no option changes vertical branches.
#[tactic(auto, unfolding(crate::specs::Flow::option_line))]
pub fn option_line(alloc: Global, lines: &mut Lines, file: &str) -> Result<Options, TextFault>
    ensures { GivesText (λ x. x) result lines.new (option_line file.now lines.old) }
{
    let line = next_line(alloc, lines, file)?;
    let mut words = Words::of(&line);
    integer(alloc, &mut words, file, line.number)?;
    number(alloc, &mut words, file, line.number)?;
    let parameters = integer(alloc, &mut words, file, line.number)?;
    if parameters > 0 || changes_vertical(&line) {
        return Err(text_fault(alloc, Code::OutOfProfile, file, line.number));
    }
    Ok(Options {
        coefficient: has_option(b"STORAGECOEFFICIENT", &line),
        thickstrt: has_option(b"THICKSTRT", &line),
    })
}

/// The next LAYTYP; under THICKSTRT one below 0 is OutOfProfile on its own line.
#[tactic(auto, unfolding(crate::specs::Flow::laytyp_at))]
fn laytyp_item<'a>(
    alloc: Global,
    free: &mut Free<'a>,
    lines: &mut Lines<'a>,
    file: &str,
    thickstrt: bool,
) -> Result<i64, TextFault>
    ensures { GivesText (λ z. z) result (free.new, lines.new) (laytyp_at thickstrt file.now (free.old, lines.old)) }
{
    let (laytyp, line) = next_value::<i64>(alloc, free, lines, file, None)?;
    if thickstrt && laytyp < 0 {
        return Err(text_fault(alloc, Code::OutOfProfile, file, line));
    }
    Ok(laytyp)
}

/// LAYTYP of `count` layers.
#[tactic(auto, unfolding(crate::specs::Flow::laytyp_list))]
fn laytyp_list(
    alloc: Global,
    lines: &mut Lines<'_>,
    file: &str,
    thickstrt: bool,
    count: u32,
) -> Result<Vec<i64>, TextFault>
    ensures { GivesText (λ v. v.items) result lines.new (laytyp_list thickstrt file.now count lines.old) }
{
    let mut free = Free::begin();
    laytyps(alloc, &mut free, lines, file, thickstrt, count)
}

fn laytyps<'a>(
    alloc: Global,
    free: &mut Free<'a>,
    lines: &mut Lines<'a>,
    file: &str,
    thickstrt: bool,
    count: u32,
) -> Result<Vec<i64>, TextFault>
    ensures { GivesText (λ v. v.items) result (free.new, lines.new)
        (repeated_reading count (laytyp_at thickstrt file.now) (free.old, lines.old)) }
{
    let mut values = Vec::new(alloc);
    for _ in 0..count {
        let value = laytyp_item(alloc, free, lines, file, thickstrt)?;
        values.push(value)?;
    }
    Ok(values)
}

/// The lists by layer: LAYTYP, LAYAVG, which is 0, CHANI, LAYVKA, and LAYWET, which is 0.
#[tactic(auto, unfolding(crate::specs::Flow::settings_of))]
pub fn settings_of(
    alloc: Global,
    lines: &mut Lines,
    file: &str,
    thickstrt: bool,
    layers: u32,
) -> Result<LayerSettings, TextFault>
    ensures { GivesText (λ s. s) result lines.new (settings_of file.now thickstrt layers lines.old) }
{
    let laytyp = laytyp_list(alloc, lines, file, thickstrt, layers)?;
    zero_list(alloc, lines, file, layers)?;
    let chani = plain_reals(alloc, lines, file, layers)?;
    let layvka = plain_ints(alloc, lines, file, layers)?;
    zero_list(alloc, lines, file, layers)?;
    Ok(LayerSettings {
        laytyp: Listed::new(laytyp),
        chani: Listed::new(chani),
        layvka: Listed::new(layvka),
    })
}
