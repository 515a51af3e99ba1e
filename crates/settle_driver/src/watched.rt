// Phases of workers in threads, beside a seat that watches where there are views.
ghost use Rattle.std.specs.Prelude.{◌≡◌, ℕ, ◌<◌, ◌≤◌, length, slice_index_or, IfOk, All, vec_len, true};
ghost use Rattle.std.specs.Result.{is_ok};
ghost use Rattle.step_problem.specs.{AreOnTheWay, IsBarrier, Settles};
ghost use Rattle.head_table.specs.declared.table.HeadSeat.{HeadSeat};
ghost use Rattle.head_table.specs.{IsSeatOf, barrier_of, seen_of};
ghost use Rattle.settle_driver.specs.Views.{HasWorked, IsPlan, IsPastCell, AddsPhases, AddsTurns, ArePastBarrier, had_memory};

use crate::open::{first_open, words_or_open};
use crate::phases::{Plan, join_seats, split_seats, turns_of_each, work_at};
use crate::viewer::Viewer;
use crate::watching::watch_turns;
use head_table::{HeadSeat, HeadTable, edge_words};
use outside::Gate;
use std::alloc::{AllocError, Global};
use std::thread::{Threads, join_mut};
use step_problem::{Barrier, Bound, Problem, SettleFault};

// The seats after their workers' turns, while one more seat watches.
fn seats_after_watched_turns<R: Threads + Sync, G: Gate + Sync, V: Viewer + Send>(
    rt: &R,
    table: &HeadTable,
    mut seats: Vec<HeadSeat>,
    turns: u32,
    gate: &G,
    watch: &mut HeadSeat,
    heads: &mut [Bound],
    p: &Problem,
    b: &Barrier,
    views: u32,
    viewer: &mut V,
) -> Vec<HeadSeat>
    requires seats { All (λ s. IsSeatOf table.now s) seats.items }
    requires some_cell { 0 < length table.now.problem.now }
    requires workers { (1 ≤ vec_len seats) × (vec_len seats ≤ 64) }
    requires watch { IsSeatOf table.now watch.old }
    requires problem { table.now.problem.now ≡ p.now }
    requires barrier { barrier_of table.now ≡ b.now }
    requires edges { IsBarrier p.now b.now }
    requires past { ArePastBarrier p.now b.now (seen_of watch.old) }
    requires whole { length heads.old ≡ length p.now }
    ensures count { vec_len result ≡ vec_len seats }
    ensures each { (i : ℕ) (d : HeadSeat) → i < vec_len seats
        → HasWorked table.now i (vec_len seats) (slice_index_or seats.items i d) (slice_index_or result.items i d) }
    ensures viewed { AddsTurns V.viewed V.stopped p.now b.now views true viewer.old viewer.new }
{
    join_mut(
        rt,
        &mut || watch_turns(table, watch, p, b, views, gate, viewer, heads),
        &mut ||
            requires seats { All (λ s. IsSeatOf table.now s) seats.items }
            requires some_cell { 0 < length table.now.problem.now }
            requires workers { (1 ≤ vec_len seats) × (vec_len seats ≤ 64) }
        { work_at(rt, table, &mut seats, turns, gate) },
    );
    seats
}

/// Settles by workers in threads while a viewer watches, with the handle and the gate that it borrows. In each phase one more seat is worker 0 and makes
/// `views` turns beside the workers; at each it looks at all heads and shows them to the viewer. After a view that gives false the viewer is shown nothing
/// more, and the settling goes on. No seat watches where `views` is 0.
#[derive(Drop)]
pub struct WatchSettler<'a, R: Threads + Sync, G: Gate + Sync> {
    rt: &'a R,
    gate: &'a G,
    plan: Plan,
    views: u32,
    pub ghost plan_fits: { IsPlan plan },
}

impl<'a, R: Threads + Sync, G: Gate + Sync> WatchSettler<'a, R, G> {
    /// In each phase the viewer is shown `views` views.
    pub fn new(rt: &'a R, plan: Plan, gate: &'a G, views: u32) -> WatchSettler<'a, R, G>
        requires { IsPlan plan }
        ensures { (result.plan ≡ plan) × (result.views ≡ views) }
    {
        WatchSettler {
            rt,
            gate,
            plan,
            views,
        }
    }

    // The seats after the turns of a phase. Memory is taken before the first of them.
    fn seats_after_turns<V: Viewer + Send>(
        &self,
        table: &HeadTable,
        seat: &mut HeadSeat,
        mut seats: Vec<HeadSeat>,
        p: &Problem,
        b: &Barrier,
        words: &Vec<Bound>,
        viewer: &mut V,
    ) -> Result<Vec<HeadSeat>, AllocError>
        requires seats { All (λ s. IsSeatOf table.now s) seats.items }
        requires some_cell { 0 < length p.now }
        requires workers { (1 ≤ vec_len seats) × (vec_len seats ≤ 64) }
        requires seat { IsSeatOf table.now seat.old × (seen_of seat.old ≡ words.now.items) }
        requires problem { table.now.problem.now ≡ p.now }
        requires barrier { barrier_of table.now ≡ b.now }
        requires edges { IsBarrier p.now b.now }
        requires way { AreOnTheWay p.now b.now words.now.items }
        ensures seat { IsSeatOf table.now seat.new }
        ensures count { IfOk result (λ v. vec_len v ≡ vec_len seats) }
        ensures each { IfOk result (λ v. (i : ℕ) (d : HeadSeat) → i < vec_len seats
            → HasWorked table.now i (vec_len seats) (slice_index_or seats.items i d) (slice_index_or v.items i d)) }
        ensures viewed { AddsTurns V.viewed V.stopped p.now b.now self.now.views (is_ok result) viewer.old viewer.new }
    {
        let (rt, gate, views) = (self.rt, self.gate, self.views);
        let turns = turns_of_each(self.plan, p.len() as u32);
        if views == 0 {
            work_at(rt, table, &mut seats, turns, gate);
            return Ok(seats);
        }
        let mut heads = words.clone()?;
        let (mut watch, heads) = (table.split(seat), heads.as_mut_slice());
        let watch = &mut watch;
        Ok(seats_after_watched_turns(
            rt, table, seats, turns, gate, watch, heads, p, b, views, viewer,
        ))
    }

    // The words after a phase. All memory but that of the words is taken before the first turn.
    fn phase<V: Viewer + Send>(
        &self,
        alloc: Global,
        p: &Problem,
        b: &Barrier,
        words: &Vec<Bound>,
        viewer: &mut V,
    ) -> Result<Vec<Bound>, AllocError>
        requires way { AreOnTheWay p.now b.now words.now.items }
        requires barrier { IsBarrier p.now b.now }
        requires some_cell { 0 < length p.now }
        ensures way { IfOk result (λ v. AreOnTheWay p.now b.now v.items) }
        ensures past { IfOk result (λ v. (c : ℕ) → c < length p.now → IsPastCell p.now words.now.items v.items c) }
        ensures viewed { AddsTurns V.viewed V.stopped p.now b.now self.now.views (is_ok result) viewer.old viewer.new }
    {
        p.recall_conditions();
        let (table, mut seat) = HeadTable::new(alloc, p, b, words)?;
        let seats = split_seats(alloc, &table, &mut seat, self.plan.workers as usize)?;
        let seats = self.seats_after_turns(&table, &mut seat, seats, p, b, words, viewer)?;
        join_seats(&table, &mut seat, seats);
        table.close(seat)
    }

    /// What `settle` gives and shows, from words that an earlier settling has reached.
    pub fn settle_from<V: Viewer + Send>(
        &self,
        alloc: Global,
        p: &Problem,
        b: &Barrier,
        mut words: Vec<Bound>,
        viewer: &mut V,
    ) -> Result<Vec<Bound>, SettleFault>
        requires barrier { IsBarrier p.now b.now }
        requires way { AreOnTheWay p.now b.now words.items }
        ensures settles { Settles p.now b.now self.now.plan.rounds result }
        ensures viewed { AddsPhases V.viewed V.stopped p.now b.now self.now.views (had_memory result) viewer.old viewer.new }
    {
        if p.is_empty() {
            return Ok(Vec::new(alloc));
        }
        p.recall_conditions();
        let mut open = None;
        for _round in 0..self.plan.rounds {
            match self.phase(alloc, p, b, &words, viewer) {
                Ok(next) => words = next,
                Err(AllocError) => return Err(SettleFault::Memory),
            }
            open = first_open(p, words.as_slice());
            if open.is_none() {
                return Ok(words);
            }
        }
        words_or_open(p, words, open)
    }

    /// The one settled pair, or Unfinished only where the plan's number of plain rounds does not settle.
    pub fn settle<V: Viewer + Send>(
        &self,
        alloc: Global,
        p: &Problem,
        b: &Barrier,
        viewer: &mut V,
    ) -> Result<Vec<Bound>, SettleFault>
        requires { IsBarrier p.now b.now }
        ensures settles { Settles p.now b.now self.now.plan.rounds result }
        ensures viewed { AddsPhases V.viewed V.stopped p.now b.now self.now.views (had_memory result) viewer.old viewer.new }
    {
        match edge_words(alloc, p, b) {
            Ok(words) => self.settle_from(alloc, p, b, words, viewer),
            Err(AllocError) => Err(SettleFault::Memory),
        }
    }
}

/// Settles a problem as a `WatchSettler` does.
pub fn settle_watched<R: Threads + Sync, G: Gate + Sync, V: Viewer + Send>(
    rt: &R,
    alloc: Global,
    p: &Problem,
    b: &Barrier,
    plan: Plan,
    gate: &G,
    views: u32,
    viewer: &mut V,
) -> Result<Vec<Bound>, SettleFault>
    requires barrier { IsBarrier p.now b.now }
    requires plan { IsPlan plan }
    ensures settles { Settles p.now b.now plan.rounds result }
    ensures viewed { AddsPhases V.viewed V.stopped p.now b.now views (had_memory result) viewer.old viewer.new }
{
    WatchSettler::new(rt, plan, gate, views).settle(alloc, p, b, viewer)
}
