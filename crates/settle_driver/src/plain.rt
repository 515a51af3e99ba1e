// A settler that sweeps on one thread.
ghost use Rattle.std.specs.Prelude.{◌≡◌, MatchOption};
ghost use Rattle.step_problem.specs.{AreOnTheWay, IsBarrier, IsFirstOpen, Settles, settled};
ghost use Rattle.cell_relax.specs.{AreWords};
ghost use Rattle.settle_driver.specs.Views.{AreBothSettled, StayOnTheWay, SettleWithin};

use crate::open::{first_open, words_or_open};
use crate::sweep::{relax_cell, sweep_up_to};
use head_table::edge_words;
use std::alloc::{AllocError, Global};
use step_problem::{Barrier, Bound, Problem, SettleFault, Settler, Side};

/// Settles by plain sweeps in ascending order of the cells, at each cell the lower side and then the upper one. It ends after `rounds` sweeps, or earlier,
/// after a sweep that moved nothing. The cells of a list are relaxed before, in its order. The list may be any; a good one saves sweeps.
#[derive(Drop)]
pub struct PlainSettler<'a> {
    list: &'a [u32],
    rounds: u32,
}

impl<'a> PlainSettler<'a> {
    /// A settler of at most `rounds` sweeps.
    pub fn new(rounds: u32) -> PlainSettler<'a>
        ensures rounds { PlainSettler.rounds result ≡ rounds }
    {
        PlainSettler::with_list(&[], rounds)
    }

    /// A settler that starts with these cells, by their indices, and sweeps at most `rounds` times.
    pub fn with_list(list: &'a [u32], rounds: u32) -> PlainSettler<'a>
        ensures list { PlainSettler.list result ≡ list.entry }
        ensures rounds { PlainSettler.rounds result ≡ rounds }
    {
        PlainSettler { list, rounds }
    }
}

// The words after at most `rounds` sweeps, and the first cell that can move then; a last sweep that moved nothing has tried all.
fn words_after_sweeps(
    p: &Problem,
    mut words: Vec<Bound>,
    rounds: u32,
) -> (Vec<Bound>, Option<(u32, Side)>)
    requires words { AreWords p.now words.items }
    ensures way { StayOnTheWay p.now words.items result.0.items }
    ensures reached { SettleWithin p.now rounds words.items result.0.items }
    ensures open { MatchOption result.1 (AreBothSettled p.now result.0.items) (λ o. IsFirstOpen p.now result.0.items o.0 o.1) }
{
    if sweep_up_to(p, words.as_mut_slice(), rounds) {
        return (words, None);
    }
    let open = first_open(p, words.as_slice());
    (words, open)
}

impl PlainSettler<'_> {
    /// What `settle` gives, from words that an earlier settling has reached.
    pub fn settle_from(
        &self,
        p: &Problem,
        b: &Barrier,
        words: Vec<Bound>,
    ) -> Result<Vec<Bound>, SettleFault>
        requires barrier { IsBarrier p.now b.now }
        requires way { AreOnTheWay p.now b.now words.items }
        ensures { Settles p.now b.now self.now.rounds result }
    {
        let (words, open) = words_after_sweeps(p, words, self.rounds);
        words_or_open(p, words, open)
    }
}

// Relaxes the cells of a list in its order, and skips numbers that are no cell's.
fn relax_listed(p: &Problem, words: &mut [Bound], list: &[u32])
    requires words { AreWords p.now words.old }
    ensures words { AreWords p.now words.new }
    ensures way { StayOnTheWay p.now words.old words.new }
{
    let cells = p.len();
    for cell in list {
        let cell = *cell as usize;
        if cell < cells {
            relax_cell(p, words, cell);
        }
    }
}

// The words after relaxing the cells of the list.
fn words_after_list(p: &Problem, mut words: Vec<Bound>, list: &[u32]) -> Vec<Bound>
    requires words { AreWords p.now words.items }
    ensures words { AreWords p.now result.items }
    ensures way { StayOnTheWay p.now words.items result.items }
{
    relax_listed(p, words.as_mut_slice(), list);
    words
}

impl Settler for PlainSettler<'_> {
    ghost pairs = { settled };

    ghost rounds = { λ s. s.rounds };

    ghost ready = { λ _. Unit {0} };

    // A settling leaves it as it was.
    ghost leads = { λ s _ _ _ t. t ≡ s };

    fn settle(
        &mut self,
        alloc: Global,
        p: &Problem,
        b: &Barrier,
    ) -> Result<Vec<Bound>, SettleFault> {
        match edge_words(alloc, p, b) {
            Ok(words) => self.settle_from(p, b, words_after_list(p, words, self.list)),
            Err(AllocError) => Err(SettleFault::Memory),
        }
    }
}
