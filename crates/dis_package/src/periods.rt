// The stress periods.
ghost use Rattle.std.specs.Prelude.{◌≡◌, ◌+◌, ◌≤◌, IfOk};
ghost use Rattle.record_lines.specs.{GivesText, HasText};
ghost use Rattle.dis_package.specs.{period_at, period_of, periods_of, kind_of, is_growth, is_time, time_of, IsTime};
ghost use Rattle.decimal_input.specs.{IsDec};

use crate::frame::count_at;
use array_reader::{next_line, number};
use decimal_input::dec::Dec;
use model_types::{Period, Stresses};
use number_limits::{is_at_least, is_at_most, is_one, is_positive};
use outside::{Code, TextFault, text_fault};
use record_lines::{Lines, Words, is_word};
use std::alloc::Global;

/// A period of these times, without stresses.
fn period_of(time: &Time) -> Period
    ensures { result ≡ period_of time.now }
{
    Period {
        perlen: time.perlen,
        nstp: time.nstp,
        tsmult: time.tsmult,
        steady: time.steady,
        stresses: Stresses::none(),
    }
}

/// The next period; `steps` is the number of steps of the periods before it.
#[tactic(auto, unfolding(crate::specs::Frames::period_at))]
fn period_at(
    alloc: Global,
    lines: &mut Lines,
    file: &str,
    steps: &mut u32,
) -> Result<Period, TextFault>
    requires { steps.old ≤ 100000 }
    ensures period { GivesText (λ p. p) result (steps.new, lines.new) (period_at file.now (steps.old, lines.old)) }
    ensures most { steps.new ≤ 100000 }
{
    let line = next_line(alloc, lines, file)?;
    let mut words = Words::of(&line);
    let time = time_of(alloc, &mut words, file, line.number)?;
    let more = *steps + time.nstp;
    if !is_time(&time) || more > 100_000 {
        return Err(text_fault(alloc, Code::BadGrid, file, line.number));
    }
    *steps = more;
    Ok(period_of(&time))
}

/// Reads `count` periods, which have at most 100000 steps in all.
#[tactic(auto, unfolding(crate::specs::Frames::periods_of))]
pub fn periods_of(
    alloc: Global,
    lines: &mut Lines,
    file: &str,
    count: u32,
) -> Result<Vec<Period>, TextFault>
    ensures periods { HasText (λ v. v.items) result (periods_of file.now count lines.old) }
{
    let mut steps = 0;
    let mut periods = Vec::new(alloc);
    for _ in 0..count {
        let period = period_at(alloc, lines, file, &mut steps)?;
        periods.push(period)?;
    }
    Ok(periods)
}

// The times of a stress period: PERLEN NSTP TSMULT and SS or TR.

/// The times of a stress period.
#[derive(Clone, Copy)]
pub struct Time {
    pub perlen: Dec,
    pub nstp: u32,
    pub tsmult: Dec,
    pub steady: bool,
}

/// Whether the next word is SS, a steady period, or TR, a transient one.
fn kind_of(words: &mut Words) -> Option<bool>
    ensures { result ≡ kind_of words.old }
{
    match words.next() {
        None => None,
        Some(word) => {
            if is_word(b"SS", word) {
                Some(true)
            } else if is_word(b"TR", word) {
                Some(false)
            } else {
                None
            }
        }
    }
}

fn is_growth(time: &Time) -> bool
    requires { IsDec time.now.tsmult }
    ensures { result ≡ is_growth time.now }
{
    is_one(time.tsmult)
        || (time.nstp <= 1000 && is_at_least(3, time.tsmult) && is_at_most(1000, time.tsmult))
}

pub fn is_time(time: &Time) -> bool
    requires { IsTime time.now }
    ensures { result ≡ is_time time.now }
{
    if time.steady {
        !time.perlen.neg && is_positive(time.tsmult)
    } else {
        is_positive(time.perlen) && is_positive(time.tsmult) && is_growth(time)
    }
}

#[tactic(auto, unfolding(crate::specs::Frames::time_of))]
pub fn time_of(alloc: Global, words: &mut Words, file: &str, line: u32) -> Result<Time, TextFault>
    ensures time { HasText (λ t. t) result (time_of file.now line words.old) }
    ensures form { IfOk result IsTime }
{
    let perlen = number(alloc, words, file, line)?;
    let nstp = count_at(alloc, words, file, line, 100_000)?;
    let tsmult = number(alloc, words, file, line)?;
    let Some(steady) = kind_of(words) else {
        return Err(text_fault(alloc, Code::BadGrid, file, line));
    };
    Ok(Time {
        perlen,
        nstp,
        tsmult,
        steady,
    })
}
