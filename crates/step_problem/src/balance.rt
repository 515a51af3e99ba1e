// The two balances of a cell.
ghost use Rattle.std.specs.Prelude.{◌≡◌, ◌<◌, ◌^◌, ℕ, ℤ, ◌+ℤ◌, All, length};
ghost use Rattle.step_problem.specs.{entries_at, ends_in, lower_balance, upper_balance, balance, IsHead, IsMagnitudeAtMost, CellFits};

pub mod branch;
mod sums;

use crate::entry::Cell;
use crate::heads::Side;
use crate::problem::Problem;
pub use sums::sum_branches;
use sums::sum_links;

/// The lower balance of a cell at its head `own`, where `values` are lower heads of the cells at its links' other ends, in the order of the links.
pub fn low_at(p: &Problem, cell: usize, own: i64, values: &[i64]) -> i128
    requires index { cell < length p.now }
    requires own { IsHead own }
    requires values { All IsHead values.now }
    requires same { length values.now ≡ length (entries_at p.now cell).links }
    ensures balance { (h : ℕ → ℤ) → ends_in h (entries_at p.now cell).links ≡ values.now → result ≡ lower_balance (entries_at p.now cell) own h }
{
    balance_at(Side::Low, p.fitting_cell(cell), own, values)
}

/// The upper balance of a cell, where `values` are upper heads.
pub fn high_at(p: &Problem, cell: usize, own: i64, values: &[i64]) -> i128
    requires index { cell < length p.now }
    requires own { IsHead own }
    requires values { All IsHead values.now }
    requires same { length values.now ≡ length (entries_at p.now cell).links }
    ensures balance { (h : ℕ → ℤ) → ends_in h (entries_at p.now cell).links ≡ values.now → result ≡ upper_balance (entries_at p.now cell) own h }
{
    balance_at(Side::High, p.fitting_cell(cell), own, values)
}

fn balance_at(side: Side, cell: &Cell, own: i64, values: &[i64]) -> i128
    requires fits { CellFits cell.now }
    requires own { IsHead own }
    requires values { All IsHead values.now }
    requires same { length values.now ≡ length cell.now.links }
    ensures { (h : ℕ → ℤ) → ends_in h cell.now.links ≡ values.now → result ≡ balance side cell.now own h }
{
    let flows = sum_branches(side, own, &cell.flows);
    let links = sum_links(side, own, &cell.links, values);
    let fixed = sum_branches(side, own, &cell.fixed);
    let rivers = sum_branches(side, own, &cell.rivers);
    let drains = sum_branches(side, own, &cell.drains);
    let evaps = sum_branches(side, own, &cell.evaps);
    let given = sum_of(flows, links, fixed);
    let at_bottoms = sum_of(rivers, drains, evaps);
    given + at_bottoms
}

/// The sum of three flows.
pub fn sum_of(first: i128, second: i128, third: i128) -> i128
    requires first { IsMagnitudeAtMost first (2 ^ 123) }
    requires second { IsMagnitudeAtMost second (2 ^ 123) }
    requires third { IsMagnitudeAtMost third (2 ^ 123) }
    ensures value { result ≡ first +ℤ second +ℤ third }
    ensures within { IsMagnitudeAtMost result (2 ^ 125) }
{
    let two = first + second;
    two + third
}
