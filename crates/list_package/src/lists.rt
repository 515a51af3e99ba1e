// A list for each stress period.
ghost use Rattle.std.specs.Prelude.{◌≡◌};
ghost use Rattle.record_lines.specs.{GivesText, HasText};
ghost use Rattle.model_types.specs.{HasSize};
ghost use Rattle.list_package.specs.{list_at, list_of, period_at, periods_of};

use crate::entry::new_list;
use crate::header::{Count, header_of};
use crate::kind::ListEntry;
use array_reader::next_line;
use model_types::{Grid, Limits, Period, Shared};
use outside::{Code, TextFault, text_fault};
use record_lines::{Lines, Words};
use std::alloc::Global;

/// The list that follows, or the last one again.
fn list_of<E: ListEntry>(
    alloc: Global,
    lists: E::Lists,
    lines: &mut Lines,
    file: &str,
    grid: &Grid,
    count: Count,
    last: &Option<Shared<E>>,
) -> Result<Shared<E>, TextFault>
    requires size { HasSize grid.now }
    ensures { GivesText (λ l. l) result lines.new (list_of (E.kind lists) file.now grid.now count last.now lines.old) }
{
    match count {
        Count::Entries(count) => {
            let list = new_list::<E>(alloc, lists, lines, file, grid, count)?;
            Ok(Shared::new(alloc, list)?)
        }
        Count::Again => match last {
            None => Ok(Shared::new(alloc, Vec::new(alloc))?),
            Some(list) => Ok(list.again()?),
        },
    }
}

/// The next period's list, which becomes the last one.
#[tactic(auto, unfolding(crate::specs::Entries::list_at))]
fn list_at<E: ListEntry>(
    alloc: Global,
    limits: Limits,
    lists: E::Lists,
    lines: &mut Lines,
    file: &str,
    grid: &Grid,
    period: &Period,
    last: &mut Option<Shared<E>>,
) -> Result<Shared<E>, TextFault>
    requires size { HasSize grid.now }
    ensures { GivesText (λ l. l) result (last.new, lines.new) (list_at limits (E.kind lists) file.now grid.now period.now (last.old, lines.old)) }
{
    let line = next_line(alloc, lines, file)?;
    let mut words = Words::of(&line);
    let count = header_of(alloc, limits, &mut words, file, line.number, last.is_some())?;
    let list = list_of::<E>(alloc, lists, lines, file, grid, count, last)?;
    if !E::suits(lists, period, list.as_slice()) {
        return Err(text_fault(alloc, Code::OutOfProfile, file, line.number));
    }
    let kept = list.again()?;
    *last = Some(kept);
    Ok(list)
}

/// Puts its list, which becomes the last one, into the next period.
#[tactic(auto, unfolding(crate::specs::Entries::period_at))]
fn read_period<E: ListEntry>(
    alloc: Global,
    limits: Limits,
    lists: E::Lists,
    lines: &mut Lines,
    file: &str,
    grid: &Grid,
    period: &mut Period,
    last: &mut Option<Shared<E>>,
) -> Result<(), TextFault>
    requires size { HasSize grid.now }
    ensures { GivesText (λ _. period.new) result (last.new, lines.new) (period_at limits (E.kind lists) file.now grid.now period.old (last.old, lines.old)) }
{
    let list = list_at::<E>(alloc, limits, lists, lines, file, grid, period, last)?;
    E::put(lists, &mut period.stresses, list);
    Ok(())
}

/// Puts their lists into the periods.
#[tactic(auto, unfolding(crate::specs::Entries::periods_of))]
pub fn read_periods<E: ListEntry>(
    alloc: Global,
    limits: Limits,
    lists: E::Lists,
    lines: &mut Lines,
    file: &str,
    grid: &Grid,
    periods: &mut [Period],
) -> Result<(), TextFault>
    requires size { HasSize grid.now }
    ensures { HasText (λ _. periods.new) result (periods_of limits (E.kind lists) file.now grid.now periods.old lines.old) }
{
    let mut last = None;
    for period in periods.iter_mut() {
        read_period::<E>(alloc, limits, lists, lines, file, grid, period, &mut last)?;
    }
    Ok(())
}
