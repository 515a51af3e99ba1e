// The numbers of an entry after Layer Row Column.
ghost use Rattle.std.specs.Prelude.{◌≡◌, IfOk, All, length};
ghost use Rattle.decimal_input.specs.{IsDec};
ghost use Rattle.record_lines.specs.{GivesText, repeated_reading};
ghost use Rattle.array_reader.specs.{number_at};
ghost use Rattle.array_reader.specs.Numbers as spec;
ghost use Rattle.list_package.specs.{column_fault, first_fault};

use array_reader::number;
use decimal_input::dec::Dec;
use number_limits::is_head;
use outside::{Code, TextFault};
use record_lines::Words;
use std::alloc::Global;

/// What a number of an entry is, and so how it is tested.
#[derive(Clone, Copy)]
pub enum Column {
    /// Any number.
    Rate,
    /// A head or an elevation, which must not be too large.
    Head,
    /// A conductance, which must not be below 0.
    Conductance,
}

/// Puts the next words of a line into `numbers`, one number for each column, in place of what was there. So the
/// entries of a list are read with one piece of memory.
pub fn read_numbers(
    alloc: Global,
    words: &mut Words,
    file: &str,
    line: u32,
    columns: &[Column],
    numbers: &mut Vec<Dec>,
) -> Result<(), TextFault>
    ensures numbers { GivesText (λ _. numbers.new.items) result words.new
        (repeated_reading (length columns.now) (number_at spec.number file.now line) words.old) }
    ensures count { IfOk result (λ _. length numbers.new.items ≡ length columns.now) }
    ensures decimals { IfOk result (λ _. All IsDec numbers.new.items) }
{
    let count = columns.len();
    numbers.clear();
    for _ in 0..count {
        let x = number(alloc, words, file, line)?;
        numbers.push(x)?;
    }
    Ok(())
}

fn column_fault(column: Column, x: Dec) -> Option<Code>
    requires { IsDec x }
    ensures { result ≡ column_fault column x }
{
    match column {
        Column::Rate => None,
        Column::Head if is_head(x) => None,
        Column::Head => Some(Code::HeadTooLarge),
        Column::Conductance if x.neg => Some(Code::BadProperty),
        Column::Conductance => None,
    }
}

/// The first test that numbers of these columns fail.
pub fn first_fault(columns: &[Column], numbers: &[Dec]) -> Option<Code>
    requires count { length numbers.now ≡ length columns.now }
    requires decimals { All IsDec numbers.now }
    ensures { result ≡ first_fault columns.now numbers.now }
{
    for k in 0..columns.len() {
        let fault = column_fault(columns[k], numbers[k]);
        if fault.is_some() {
            return fault;
        }
    }
    None
}
