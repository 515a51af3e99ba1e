// The table and its seats.
ghost use Rattle.std.specs.Prelude.{◌≡◌, ◌+◌, ◌*◌, ◌≤◌, [], length, true};
ghost use Rattle.head_table.specs.Rule.{IsSound};
ghost use Rattle.step_problem.specs.{cell_limit};

use crate::known::{Facts, Heads, Known};
use atomic_table::{Seat, Table};
use std::alloc::Global;
use step_problem::Problem;

/// The shared words of a problem: a counter of claims, and for each cell a lower and an upper head.
#[derive(Drop)]
pub struct HeadTable<'a> {
    pub(crate) problem: &'a Problem,
    pub(crate) table: Table<(), Known, Facts, Heads, Global>,
    pub(crate) alloc: Global,
    pub ghost same: { table.shared.key.problem.value ≡ problem.now },
    pub ghost small: { length problem.now ≤ cell_limit },
    pub ghost words: { table.shared.table_id.words ≡ 2 * length problem.now + 1 },
    pub ghost slots: { table.shared.table_id.slots ≡ 0 },
}

/// What one actor has seen of a table. It has no bytes.
#[derive(Drop)]
pub struct HeadSeat {
    pub(crate) seat: Seat<(), Known>,
    pub ghost live: { seat.me.0.live ≡ true },
    pub ghost holds_none: { seat.me.1 ≡ [] },
    pub ghost sound: { IsSound seat.me.0 },
}
