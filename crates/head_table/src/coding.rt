// Heads as words, and the word of each.
ghost use Rattle.std.specs.Prelude.{◌≡◌, ◌<◌, ◌≤◌};
ghost use Rattle.step_problem.specs.{IsHead, cell_limit};
ghost use Rattle.head_table.specs.{head_of_word, word_of};

use step_problem::Side;
use step_problem::problem::HEAD_LIMIT;

// The number of the word that has a cell's head on a side.
#[inline(always)]
pub(crate) fn word_of(side: Side, cell: usize) -> usize
    requires { cell < cell_limit }
    ensures { result ≡ word_of side cell }
{
    match side {
        Side::Low => 2 * cell + 1,
        Side::High => 2 * cell + 2,
    }
}

// The word for a head.
pub(crate) fn word_of_head(head: i64) -> u64
    requires { IsHead head }
    ensures value { head_of_word result ≡ head }
    ensures small { result ≤ 8000000000000000000 }
{
    (head + HEAD_LIMIT) as u64
}

// The head of a word.
pub(crate) fn head_from_word(word: u64) -> i64
    requires { IsHead (head_of_word word) }
    ensures { result ≡ head_of_word word }
{
    word as i64 - HEAD_LIMIT
}
