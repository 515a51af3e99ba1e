// The parts of a phase: the seats are made, the workers make their turns, and the seats are joined.
ghost use Rattle.std.specs.Prelude.{◌≡◌, ℕ, ◌<◌, ◌≤◌, length, slice_index_or, IfOk, All, vec_len, ◌*◌, ◌↔◌, IsTrue};
ghost use Rattle.head_table.specs.declared.table.HeadSeat.{HeadSeat};
ghost use Rattle.cell_relax.specs.{AreNoLooser};
ghost use Rattle.head_table.specs.{IsSeatOf, seen_of};
ghost use Rattle.settle_driver.specs.{HasSeen, HasWorked, IsPlan, AreShared};
ghost use Rattle.step_problem.specs.{cell_limit};

use head_table::{HeadSeat, HeadTable};
use outside::Gate;
use relax_worker::{own_turns, work};
use std::alloc::{AllocError, Global};
use std::thread;
use std::thread::Threads;

// So many seats more, which have seen what this one has.
pub(crate) fn split_seats(
    alloc: Global,
    table: &HeadTable,
    seat: &mut HeadSeat,
    workers: usize,
) -> Result<Vec<HeadSeat>, AllocError>
    requires { IsSeatOf table.now seat.old }
    ensures seat { IsSeatOf table.now seat.new × (seen_of seat.new ≡ seen_of seat.old) }
    ensures count { IfOk result (λ v. vec_len v ≡ workers) }
    ensures each { IfOk result (λ v. All (λ s. HasSeen table.now (seen_of seat.old) s) v.items) }
{
    let mut seats = Vec::with_capacity(alloc, workers)?;
    for _i in 0..workers {
        seats.push(table.split(seat))?;
    }
    Ok(seats)
}

// Joins all the seats into one.
pub(crate) fn join_seats(table: &HeadTable, seat: &mut HeadSeat, mut seats: Vec<HeadSeat>)
    requires seat { IsSeatOf table.now seat.old }
    requires seats { All (λ s. IsSeatOf table.now s) seats.items }
    ensures seat { IsSeatOf table.now seat.new }
    ensures tight { All (λ s. AreNoLooser table.now.problem.now (seen_of s) (seen_of seat.new)) seats.items }
{
    while let Some(other) = seats.pop() {
        table.join(seat, other);
    }
}

// The work of worker number i in a phase.
fn work_one<G: Gate>(
    table: &HeadTable,
    seat: &mut HeadSeat,
    i: usize,
    workers: usize,
    turns: u32,
    gate: &G,
)
    requires seat { IsSeatOf table.now seat.old }
    requires some_cell { 0 < length table.now.problem.now }
    requires workers { (i < workers) × (workers ≤ 64) }
    ensures { HasWorked table.now i workers seat.old seat.new }
{
    table.problem().recall_conditions();
    let worker = i as u32 + 1;
    work(table, seat, worker, turns, gate);
    own_turns(table, seat, worker, workers as u32);
}

// Each seat has its worker.
pub(crate) fn work_at<R: Threads + Sync, G: Gate + Sync>(
    rt: &R,
    table: &HeadTable,
    seats: &mut Vec<HeadSeat>,
    turns: u32,
    gate: &G,
)
    requires seats { All (λ s. IsSeatOf table.now s) seats.old.items }
    requires some_cell { 0 < length table.now.problem.now }
    requires workers { (1 ≤ vec_len seats.old) × (vec_len seats.old ≤ 64) }
    ensures count { vec_len seats.new ≡ vec_len seats.old }
    ensures each { (i : ℕ) (d : HeadSeat) → i < vec_len seats.old
        → HasWorked table.now i (vec_len seats.old) (slice_index_or seats.old.items i d) (slice_index_or seats.new.items i d) }
{
    let workers = seats.len();
    thread::for_each_mut(
        rt,
        seats.as_mut_slice(),
        workers,
        &|i, seat| work_one(table, seat, i, workers, turns, gate),
    );
}

// How a problem is settled by workers.

/// The number of workers, from 1 to 64; the turns for each cell in a phase, at most 512; and at least one round, which is the greatest number of phases.
#[derive(Clone, Copy)]
pub struct Plan {
    pub workers: u32,
    pub turns_per_cell: u32,
    pub rounds: u32,
}

impl Plan {
    /// Whether the plan keeps its limits.
    pub fn fits(&self) -> bool
        ensures { IsTrue result ↔ IsPlan self.now }
    {
        1 <= self.workers && self.workers <= 64 && self.turns_per_cell <= 512 && 1 <= self.rounds
    }
}

// The turns of each worker in a phase.
pub(crate) fn turns_of_each(plan: Plan, cells: u32) -> u32
    requires plan { IsPlan plan }
    requires cells { cells ≤ cell_limit }
    ensures { AreShared (plan.turns_per_cell * cells) plan.workers result }
{
    (plan.turns_per_cell * cells).div_ceil(plan.workers)
}
