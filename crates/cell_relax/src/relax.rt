// The relaxed head of one cell, by trials: either balance falls in the cell's own head.
ghost use Rattle.std.specs.Prelude.{◌≡◌, ◌<◌, ◌+◌, ◌↔◌, ℕ, ℤ, All, IsTrue, length, take};
ghost use Rattle.step_problem.specs.{entries_at, ends_in, balance, IsHead, IsRaise, IsSink};
ghost use Rattle.cell_relax.specs.{LetsMove, IsRelaxedOn, turned_on, head_of, heads_on, AreWords, tighter_of};

use crate::middle::Trend;
use step_problem::problem::HEAD_LIMIT;
use step_problem::{Bound, Problem, Side, high_at, low_at};

// A head, turned on the high side, so that each side moves upwards.
fn turned_head(side: Side, head: i64) -> i64
    requires { IsHead head }
    ensures { result ≡ turned_on side head }
{
    match side {
        Side::Low => head,
        Side::High => -head,
    }
}

pub(crate) fn balance_at(p: &Problem, side: Side, cell: usize, own: i64, values: &[i64]) -> i128
    requires index { cell < length p.now }
    requires own { IsHead own }
    requires values { All IsHead values.now }
    requires same { length values.now ≡ length (entries_at p.now cell).links }
    ensures { (h : ℕ → ℤ) → ends_in h (entries_at p.now cell).links ≡ values.now → result ≡ balance side (entries_at p.now cell) own h }
{
    match side {
        Side::Low => low_at(p, cell, own, values),
        Side::High => high_at(p, cell, own, values),
    }
}

/// Whether the cell may go further at this balance.
pub fn lets_move(side: Side, balance: i128) -> bool
    ensures { IsTrue result ↔ LetsMove side balance }
{
    match side {
        Side::Low => balance >= 0,
        Side::High => balance <= 0,
    }
}

// What is left of a balance, which falls as the head moves on.
fn left_of(side: Side, balance: i128) -> i128 {
    match side {
        Side::Low => balance,
        Side::High => 0_i128.saturating_sub(balance),
    }
}

/// The relaxed head of a cell on a side: its raise value or its sink value. It is inlined, so that each side has a loop of its own.
#[inline(always)]
pub fn relax_to(p: &Problem, side: Side, cell: usize, own: i64, values: &[i64]) -> i64
    requires index { cell < length p.now }
    requires own { IsHead own }
    requires values { All IsHead values.now }
    requires same { length values.now ≡ length (entries_at p.now cell).links }
    ensures relaxed { (l : ℕ → ℤ) → l cell ≡ own → ends_in l (entries_at p.now cell).links ≡ values.now → IsRelaxedOn side p.now l cell result }
    ensures head { IsHead result }
{
    let mut reached = turned_head(side, own);
    let mut beyond = HEAD_LIMIT + 1;
    let mut trend = Trend::new();
    while beyond - reached > 1 {
        let trial = trend.next(reached, beyond);
        let at = turned_head(side, trial);
        let balance = balance_at(p, side, cell, at, values);
        trend = trend.after(trial - reached, left_of(side, balance));
        if lets_move(side, balance) {
            reached = trial;
        } else {
            beyond = trial;
        }
    }
    turned_head(side, reached)
}

/// The raise value of a cell, in units of 10^-9 length units: the greater of `own` and the greatest head
/// at which its lower balance is not negative, where the other ends of its links have the heads `values`.
pub fn raise_to(p: &Problem, cell: usize, own: i64, values: &[i64]) -> i64
    requires index { cell < length p.now }
    requires own { IsHead own }
    requires values { All IsHead values.now }
    requires same { length values.now ≡ length (entries_at p.now cell).links }
    ensures raise { (l : ℕ → ℤ) → l cell ≡ own → ends_in l (entries_at p.now cell).links ≡ values.now → IsRaise p.now l cell result }
    ensures head { IsHead result }
{
    relax_to(p, Side::Low, cell, own, values)
}

/// The sink value of a cell, in units of 10^-9 length units: the lesser of `own` and the least head
/// at which its upper balance is not positive, where the other ends of its links have the heads `values`.
pub fn sink_to(p: &Problem, cell: usize, own: i64, values: &[i64]) -> i64
    requires index { cell < length p.now }
    requires own { IsHead own }
    requires values { All IsHead values.now }
    requires same { length values.now ≡ length (entries_at p.now cell).links }
    ensures sink { (u : ℕ → ℤ) → u cell ≡ own → ends_in u (entries_at p.now cell).links ≡ values.now → IsSink p.now u cell result }
    ensures head { IsHead result }
{
    relax_to(p, Side::High, cell, own, values)
}

// The relaxed head of a cell, from a list of one bound for each cell.

/// The head of a bound on a side.
pub fn head_on(side: Side, word: Bound) -> i64
    ensures { result ≡ head_of side word }
{
    match side {
        Side::Low => word.low,
        Side::High => word.high,
    }
}

/// The tighter of two heads.
pub fn tighter_of(side: Side, a: i64, b: i64) -> i64
    ensures { result ≡ tighter_of side a b }
{
    match side {
        Side::Low => a.max(b),
        Side::High => a.min(b),
    }
}

// Writes the heads at the other ends of a cell's links, in the order of the links, to the front of
// `values`, and returns their number.
fn read_values(
    p: &Problem,
    cell: usize,
    words: &[Bound],
    side: Side,
    values: &mut [i64; 6],
) -> usize
    requires index { cell < length p.now }
    requires whole { length words.now ≡ length p.now }
    ensures count { result ≡ length (entries_at p.now cell).links }
    ensures read { take result values.new ≡ ends_in (heads_on side words.now) (entries_at p.now cell).links }
{
    p.recall_conditions();
    let links = p.cell(cell).links.as_slice();
    for i in 0..links.len() {
        values[i] = head_on(side, words[links[i].cell as usize]);
    }
    links.len()
}

/// The balance of a cell on a side, at the heads of that side.
pub fn balance_in(p: &Problem, words: &[Bound], cell: usize, side: Side) -> i128
    requires index { cell < length p.now }
    requires words { AreWords p.now words.now }
    ensures { result ≡ balance side (entries_at p.now cell) (heads_on side words.now cell) (heads_on side words.now) }
{
    p.recall_conditions();
    let mut values = [0; 6];
    let count = read_values(p, cell, words, side, &mut values);
    balance_at(p, side, cell, head_on(side, words[cell]), &values[..count])
}

/// The relaxed head of a cell on a side, from the heads of that side. It is inlined, as `relax_to` is.
#[inline(always)]
pub fn relax_in(p: &Problem, words: &[Bound], cell: usize, side: Side) -> i64
    requires index { cell < length p.now }
    requires words { AreWords p.now words.now }
    ensures relaxed { IsRelaxedOn side p.now (heads_on side words.now) cell result }
    ensures head { IsHead result }
{
    p.recall_conditions();
    let mut values = [0; 6];
    let count = read_values(p, cell, words, side, &mut values);
    relax_to(p, side, cell, head_on(side, words[cell]), &values[..count])
}
