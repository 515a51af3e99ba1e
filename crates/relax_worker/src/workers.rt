// A worker's turns.
ghost use Rattle.std.specs.Prelude.{◌≡◌, ℕ, ◌-◌, ◌%◌, ◌<◌, ◌≤◌, length, All};
ghost use Rattle.step_problem.specs.declared.heads.Side.{Side};
ghost use Rattle.cell_relax.specs.{AreNoLooser, other};
ghost use Rattle.head_table.specs.{HasMoved, IsSeatOf, seen_of, seen_on, SameOn};
ghost use Rattle.step_problem.specs.{ends_in, link_at};

use cell_relax::relax_to;
use head_table::{HeadSeat, HeadTable};
use outside::Gate;
use step_problem::{Link, Side};

// The place of a ticket's cell, before it is taken modulo the number of cells. A worker goes through the cells as they lie in memory,
// an even number of cells from where the next worker does: so workers rarely share a cache line, and two that take tickets by turns
// come to all cells.
fn place(ticket: u64, worker: u32, cells: usize) -> u64 {
    let distance = cells as u64 / 128 * 2;
    ticket.wrapping_add(distance.wrapping_mul(worker as u64))
}

/// Makes `turns` turns, each at a claimed ticket and each after a pass of the gate.
pub fn work<G: Gate>(table: &HeadTable, seat: &mut HeadSeat, worker: u32, turns: u32, gate: &G)
    requires seat { IsSeatOf table.now seat.old }
    requires some_cell { 0 < length table.now.problem.now }
    ensures seat { IsSeatOf table.now seat.new }
    ensures no_looser { AreNoLooser table.now.problem.now (seen_of seat.old) (seen_of seat.new) }
{
    let cells = table.problem().len();
    for number in 0..turns {
        gate.pass(worker, number);
        let ticket = table.claim(seat);
        turn(table, seat, place(ticket, worker, cells));
    }
}

/// Makes a turn at each of the worker's own cells: those of index `worker - 1` modulo `workers`. The
/// workers are numbered from 1.
pub fn own_turns(table: &HeadTable, seat: &mut HeadSeat, worker: u32, workers: u32)
    requires seat { IsSeatOf table.now seat.old }
    requires some_cell { 0 < length table.now.problem.now }
    requires worker { (1 ≤ worker) × (worker ≤ workers) × (workers ≤ 64) }
    ensures seat { IsSeatOf table.now seat.new }
    ensures moved { (side : Side) (c : ℕ) → c < length table.now.problem.now → c % workers ≡ worker - 1 →
        HasMoved side table.now.problem.now (seen_on side seat.old) c (seen_on side seat.new c) }
    ensures no_looser { AreNoLooser table.now.problem.now (seen_of seat.old) (seen_of seat.new) }
{
    for cell in 0..table.problem().len() {
        if cell % workers as usize == worker as usize - 1 {
            turn(table, seat, cell as u64);
        }
    }
}

// One turn of a worker: a cell is raised and sunk as far as what its seat sees allows.

// Loads the heads of a cell and of its links on a side, and raises or sinks it.
#[inline(always)]
fn relax_cell(table: &HeadTable, seat: &mut HeadSeat, side: Side, cell: usize)
    requires seat { IsSeatOf table.now seat.old }
    requires cell { cell < length table.now.problem.now }
    ensures seat { IsSeatOf table.now seat.new }
    ensures gain { HasMoved side table.now.problem.now (seen_on side seat.old) cell (seen_on side seat.new cell) }
    ensures no_looser { AreNoLooser table.now.problem.now (seen_of seat.old) (seen_of seat.new) }
    ensures opposite { SameOn (other side) seat.old seat.new }
{
    let problem = table.problem();
    problem.recall_conditions();
    let links = problem.cell(cell).links.as_slice();
    let own = table.load(seat, side, cell);
    let mut values = [0i64; 6];
    let values = &mut values[..links.len()];
    load_links(table, seat, side, links, values);
    let to = relax_to(problem, side, cell, own, values);
    table.exchange(seat, side, cell, to);
}

/// One turn at the cell of a ticket: it loads the lower heads of the cell and of its links, raises it, loads
/// the upper ones, and sinks it.
pub fn turn(table: &HeadTable, seat: &mut HeadSeat, ticket: u64)
    requires seat { IsSeatOf table.now seat.old }
    requires some_cell { 0 < length table.now.problem.now }
    ensures seat { IsSeatOf table.now seat.new }
    ensures moved { let c = ticket % length table.now.problem.now in
        (side : Side) → HasMoved side table.now.problem.now (seen_on side seat.old) c (seen_on side seat.new c) }
    ensures no_looser { AreNoLooser table.now.problem.now (seen_of seat.old) (seen_of seat.new) }
{
    let cell = (ticket % table.problem().len() as u64) as usize;
    relax_cell(table, seat, Side::Low, cell);
    relax_cell(table, seat, Side::High, cell);
}

// Loads the heads at the links' other ends, in the order of the links. It is inlined, so that each side has code of its own.
#[inline(always)]
fn load_links(
    table: &HeadTable,
    seat: &mut HeadSeat,
    side: Side,
    links: &[Link],
    values: &mut [i64],
)
    requires seat { IsSeatOf table.now seat.old }
    requires lens { length values.old ≡ length links.now }
    requires within { All (λ x. x.cell < length table.now.problem.now) links.now }
    requires apart { (i j : ℕ) → i < j → j < length links.now → (link_at links.now i).cell ≡ (link_at links.now j).cell → ⊥ }
    ensures seat { IsSeatOf table.now seat.new }
    ensures values { values.new ≡ ends_in (seen_on side seat.new) links.now }
    ensures others { (d : ℕ) → All (λ x. x.cell ≡ d → ⊥) links.now → seen_on side seat.new d ≡ seen_on side seat.old d }
    ensures no_looser { AreNoLooser table.now.problem.now (seen_of seat.old) (seen_of seat.new) }
    ensures opposite { SameOn (other side) seat.old seat.new }
{
    for i in 0..links.len() {
        values[i] = table.load(seat, side, links[i].cell as usize);
    }
}
