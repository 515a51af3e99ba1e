// Making a table from words, and getting them back.
ghost use Rattle.std.specs.Prelude.{◌≡◌, ℕ, ◌+◌, ◌*◌, ◌<◌, ◌≤◌, length, IfOk, vec_len};
ghost use Rattle.std.specs.Mem.Slots.{slots_items, slots_len, IsFull};
ghost use Rattle.step_problem.specs.{IsHead, AreOnTheWay, cell_limit};
ghost use Rattle.step_problem.specs.declared.heads.Side.{Side};
ghost use Rattle.cell_relax.specs.{AreNoLooser, heads_on};
ghost use Rattle.head_table.specs.{words_on, IsSeatOf, barrier_of, seen_of};

use crate::coding::{head_from_word, word_of_head};
use crate::known::Facts;
use crate::table::{HeadSeat, HeadTable};
use atomic_table::{Closed, Table};
use std::alloc::{AllocError, Global};
use std::snapshot::Snapshot;
use step_problem::{Barrier, Bound, Problem};

// The counter, and two words for each cell.
fn raw_words(alloc: Global, words: &[Bound]) -> Result<Vec<u64>, AllocError>
    requires { (side : Side) (c : ℕ) → c < length words.now → IsHead (heads_on side words.now c) }
    ensures len { IfOk result (λ v. vec_len v ≡ 2 * length words.now + 1) }
    ensures heads { IfOk result (λ v. (side : Side) (c : ℕ) → c < length words.now → words_on side v.items c ≡ heads_on side words.now c) }
{
    let mut raw = Vec::new(alloc);
    raw.push(0)?;
    for word in words {
        raw.push(word_of_head(word.low))?;
        raw.push(word_of_head(word.high))?;
    }
    Ok(raw)
}

impl<'a> HeadTable<'a> {
    /// A table of these words, one bound for each cell, on the way from the barrier; and its first seat,
    /// which has seen them.
    pub fn new(
        alloc: Global,
        problem: &'a Problem,
        barrier: &Barrier,
        words: &Vec<Bound>,
    ) -> Result<(HeadTable<'a>, HeadSeat), AllocError>
        requires { AreOnTheWay problem.now barrier.now words.now.items }
        ensures problem { IfOk result (λ r. r.0.problem.now ≡ problem.now) }
        ensures barrier { IfOk result (λ r. barrier_of r.0 ≡ barrier.now) }
        ensures seat { IfOk result (λ r. IsSeatOf r.0 r.1) }
        ensures seen { IfOk result (λ r. seen_of r.1 ≡ words.now.items) }
    {
        problem.recall_conditions();
        let raw = raw_words(alloc, words.as_slice())?;
        let facts = Facts {
            problem: Snapshot::of(problem),
            barrier: Snapshot::of(barrier),
            words: Snapshot::of(words),
        };
        let (table, seat) = Table::of_words(alloc, raw.as_slice(), &facts)?;
        Ok((
            HeadTable {
                problem,
                table,
                alloc,
            },
            HeadSeat { seat },
        ))
    }
}

// The bounds in closed words.
fn read_all(
    alloc: Global,
    closed: &Closed<(), Global>,
    cells: usize,
) -> Result<Vec<Bound>, AllocError>
    requires words { IsFull closed.now.words × (slots_len closed.now.words ≡ 2 * cells + 1) × (cells ≤ cell_limit) }
    requires range { (side : Side) (c : ℕ) → c < cells → IsHead (words_on side (slots_items closed.now.words) c) }
    ensures len { IfOk result (λ v. vec_len v ≡ cells) }
    ensures heads { IfOk result (λ v. (side : Side) (c : ℕ) → c < cells → heads_on side v.items c ≡ words_on side (slots_items closed.now.words) c) }
{
    let mut bounds = Vec::with_capacity(alloc, cells)?;
    for cell in 0..cells {
        let low = head_from_word(closed.word(2 * cell + 1));
        let high = head_from_word(closed.word(2 * cell + 2));
        bounds.push(Bound { low, high })?;
    }
    Ok(bounds)
}

impl<'a> HeadTable<'a> {
    /// Ends the table with one of its seats and returns its words, which are as tight as all that the seat has
    /// seen. If memory runs out the words are lost.
    pub fn close(self, seat: HeadSeat) -> Result<Vec<Bound>, AllocError>
        requires { IsSeatOf self seat }
        ensures kept { IfOk result (λ v. AreOnTheWay self.entry.problem.now (barrier_of self.entry) v.items) }
        ensures tight { IfOk result (λ v. AreNoLooser self.entry.problem.now (seen_of seat) v.items) }
    {
        let HeadTable {
            problem,
            table,
            alloc,
        } = self;
        let cells = problem.len();
        let HeadSeat { seat } = seat;
        let closed = table.close_with(seat);
        let bounds = read_all(alloc, &closed, cells);
        closed.free();
        bounds
    }
}
