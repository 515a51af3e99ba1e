// The turns of a seat that watches.
ghost use Rattle.std.specs.Prelude.{◌≡◌, length, true};
ghost use Rattle.step_problem.specs.{IsBarrier};
ghost use Rattle.head_table.specs.{IsSeatOf, barrier_of, seen_of};
ghost use Rattle.settle_driver.specs.{AddsTurns, ArePastBarrier, EnclosesPair};

use crate::viewer::Viewer;
use head_table::{HeadSeat, HeadTable};
use outside::Gate;
use step_problem::{Barrier, Bound, Problem};

// Workers are numbered from 1.
const WATCHER: u32 = 0;

// Loads all heads of the table.
fn look(table: &HeadTable, seat: &mut HeadSeat, p: &Problem, b: &Barrier, heads: &mut [Bound])
    requires seat { IsSeatOf table.now seat.old }
    requires problem { table.now.problem.now ≡ p.now }
    requires barrier { barrier_of table.now ≡ b.now }
    requires past { ArePastBarrier p.now b.now (seen_of seat.old) }
    requires whole { length heads.old ≡ length p.now }
    ensures seat { IsSeatOf table.now seat.new }
    ensures past { ArePastBarrier p.now b.now (seen_of seat.new) }
    ensures whole { length heads.new ≡ length p.now }
    ensures pair { EnclosesPair p.now b.now heads.new }
{
    table.watch(seat, heads);
}

/// The turns of the watching seat in a phase. Each passes the gate, looks at all heads and shows them. After a view that gives false there is none.
pub(crate) fn watch_turns<G: Gate, V: Viewer>(
    table: &HeadTable,
    seat: &mut HeadSeat,
    p: &Problem,
    b: &Barrier,
    turns: u32,
    gate: &G,
    viewer: &mut V,
    heads: &mut [Bound],
)
    requires seat { IsSeatOf table.now seat.old }
    requires problem { table.now.problem.now ≡ p.now }
    requires barrier { barrier_of table.now ≡ b.now }
    requires edges { IsBarrier p.now b.now }
    requires past { ArePastBarrier p.now b.now (seen_of seat.old) }
    requires whole { length heads.old ≡ length p.now }
    ensures { AddsTurns V.viewed V.stopped p.now b.now turns true viewer.old viewer.new }
{
    for turn in 0..turns {
        gate.pass(WATCHER, turn);
        look(table, seat, p, b, heads);
        if !viewer.view(p, b, heads) {
            return;
        }
    }
}
