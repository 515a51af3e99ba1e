// A table of sums for each pair of zones. The pair a, b has the key 1000 * a + b.
ghost use Rattle.std.specs.Prelude.{◌≡◌, ◌≤◌, OnOk, [], ◌∷◌, ◌≤ℤ◌, ◌+ℤ◌, ◌-ℤ◌, pos};
ghost use Rattle.std.specs.Int.Signed.{lt_z};
ghost use Rattle.std.specs.BTreeMap.{IsOrdered};
ghost use Rattle.std.specs.Ordering.{nat_cmp};
ghost use Rattle.budget_bounds.specs.{IsFlow, term_limit};
ghost use Rattle.zone_flows.specs.Tables.{AreSums, Gains, IsZoneSum, flow_or_refusal, add_flow};
ghost use Rattle.zone_flows.specs.Pairs.{Returns, each_or_first};

use crate::sum::ZoneSum;
use budget_bounds::{TERM_LIMIT, TermPair, add_part};
use std::alloc::{AllocError, Global};
use std::collections::BTreeMap;
use step_problem::{BoundFault, Dir, NoBound, Place, StepRefusal, ZoneFlow};

/// The sums of each pair of zones that has any.
#[derive(Drop)]
pub(crate) struct Table {
    pub map: BTreeMap<u32, ZoneSum>,
    ghost sums: { AreSums map },
}

fn add_flow(sum: ZoneSum, flow: TermPair) -> ZoneSum
    requires sum { IsZoneSum sum }
    requires flow { IsFlow flow }
    ensures value { result ≡ add_flow sum flow }
    ensures sum { IsZoneSum result }
{
    ZoneSum {
        into: add_part(Dir::In, sum.into, flow),
        out: add_part(Dir::Out, sum.out, flow),
    }
}

/// Adds the flow across a face between two zones.
#[tactic(auto, using(crate::proofs::Tables::gained, crate::proofs::Tables::sum_in, crate::proofs::Tables::sums_grow))]
pub(crate) fn add_face(
    table: &mut Table,
    from: u32,
    to: u32,
    flow: TermPair,
) -> Result<(), AllocError>
    requires from { from ≤ 999 }
    requires to { to ≤ 999 }
    requires flow { IsFlow flow }
    ensures { OnOk result (Gains table.old.map table.new.map (record { from = from; to = to; flow = flow } ∷ [])) }
{
    let none = TermPair { lo: 0, hi: 0 };
    let sum = table.map.entry(from * 1000 + to)?.or_insert(ZoneSum {
        into: none,
        out: none,
    });
    *sum = add_flow(*sum, flow);
    Ok(())
}

// Whether the sum of both is below the limit. The sum itself may reach 2^127, which is no i128.
fn below(a: i128, b: i128) -> bool
    requires { pos 0 ≤ℤ b }
    ensures { result ≡ lt_z (a +ℤ b) term_limit }
{
    a < TERM_LIMIT - b
}

fn difference(a: i128, b: i128) -> i128
    requires a { (pos 0 ≤ℤ a) × (a ≤ℤ term_limit) }
    requires b { (pos 0 ≤ℤ b) × (b ≤ℤ term_limit) }
    ensures { result ≡ a -ℤ b }
{
    a - b
}

// The flow of the pair of zones with this key, or FlowTooLarge.
fn flow_or_refusal(key: u32, sum: ZoneSum) -> Result<ZoneFlow, NoBound>
    requires { IsZoneSum sum }
    ensures { result ≡ flow_or_refusal key sum }
{
    let (from, to) = (key / 1000, key % 1000);
    if below(sum.into.lo, sum.out.hi) && below(sum.into.hi, sum.out.lo) {
        Ok(ZoneFlow {
            from,
            to,
            lo: difference(sum.into.lo, sum.out.hi),
            hi: difference(sum.into.hi, sum.out.lo),
        })
    } else {
        Err(NoBound {
            code: StepRefusal::FlowTooLarge.number(),
            place: Place::Zone(from, to),
        })
    }
}

/// The flow of each pair in order, or the first refusal.
pub(crate) fn flows_in_order(alloc: Global, table: &Table) -> Result<Vec<ZoneFlow>, BoundFault>
    ensures flows { Returns (each_or_first (λ e. flow_or_refusal e.0 e.1) table.now.map.entries) result }
    ensures ordered { IsOrdered nat_cmp table.now.map }
{
    let mut flows = Vec::new(alloc);
    for (key, sum) in table.map.iter() {
        match flow_or_refusal(*key, *sum) {
            Ok(flow) => flows.push(flow)?,
            Err(refusal) => return Err(BoundFault::NoBound(refusal)),
        }
    }
    Ok(flows)
}
