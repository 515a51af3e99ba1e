// The sums of a cell's flows, a kind of entry at a time.
ghost use Rattle.std.specs.Prelude.{◌≡◌, ◌<◌, ◌≤◌, ◌+◌, ◌*◌, ◌^◌, ℕ, ℤ, ◌-ℤ◌, All, length, sum_by};
ghost use Rattle.step_problem.specs.{ends_in, total, branch_flow, link_flow, IsHead, IsMagnitudeAtMost, LinkFits};

use crate::balance::branch::Branch;
use crate::entry::Link;
use crate::flow::branch_flow;
use crate::heads::Side;

/// The sum of the flows of entries of one kind, at the cell's head `own`.
pub fn sum_branches<E: Branch>(side: Side, own: i64, entries: &[E]) -> i128
    requires own { IsHead own }
    requires fit { All E.fits entries.now }
    requires weights { sum_by E.weight entries.now * E.unit < 2 ^ 123 }
    ensures value { result ≡ total (E.flow side own) entries.now }
    ensures within { IsMagnitudeAtMost result (2 ^ 123) }
{
    let mut sum: i128 = 0;
    for x in entries {
        sum += x.flow_at(side, own);
    }
    sum
}

fn link_flow_at(side: Side, own: i64, x: &Link, end: i64) -> i128
    requires own { IsHead own }
    requires end { IsHead end }
    requires fits { LinkFits x.now }
    ensures value { result ≡ branch_flow side x.now.lo x.now.hi (end -ℤ own) }
    ensures within { IsMagnitudeAtMost result (x.now.hi * 2 ^ 63) }
{
    branch_flow(side, x.lo, x.hi, end - own)
}

// `values` are the heads at the links' other ends, in the order of the links.
pub(crate) fn sum_links(side: Side, own: i64, links: &[Link], values: &[i64]) -> i128
    requires own { IsHead own }
    requires values { All IsHead values.now }
    requires same { length values.now ≡ length links.now }
    requires fit { All LinkFits links.now }
    requires conductances { sum_by (λ x. x.hi) links.now < 2 ^ 60 }
    ensures value { (h : ℕ → ℤ) → ends_in h links.now ≡ values.now → result ≡ total (link_flow side h own) links.now }
    ensures within { IsMagnitudeAtMost result (2 ^ 123) }
{
    let mut sum: i128 = 0;
    for (i, x) in links.iter().enumerate() {
        sum += link_flow_at(side, own, x, values[i]);
    }
    sum
}
