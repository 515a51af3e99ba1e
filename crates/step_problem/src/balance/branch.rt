// The flow of one entry, by its cell's own head.
ghost use Rattle.std.specs.Prelude.{◌≡◌, ◌*◌, ◌^◌, ◌-ℤ◌, pos, ℕ, ℤ};
ghost use Rattle.std.specs.Int.{int_max, int_min};
ghost use Rattle.step_problem.specs.Conditions.{IsHead, IsMagnitudeAtMost, FixedFits, RiverFits, DrainFits, EvapFits, magnitude};
ghost use Rattle.step_problem.specs.Balances.{bound_on, flow_bound, fixed_flow, river_flow, drain_flow, evap_flow};

use crate::entry::{Drain, Evap, Fixed, Flow, River};
use crate::flow::branch_flow;
use crate::heads::Side;

/// An entry whose flow depends on no head, or on the cell's own head alone: a constant flow, a known head, a river, a drain, an evaporation.
pub trait Branch {
    ghost use Rattle.step_problem.specs.declared.heads.Side.{Side};

    ghost flow: { Side → ℤ → Self → ℤ };

    ghost weight: { Self → ℕ };

    // The greatest magnitude of its flow for each unit of its weight.
    ghost unit: { ℕ } = { 2 ^ 63 };

    ghost fits: { Self → Type 0 };

    /// The flow of the entry into its cell at the cell's head `own`, in units of 10^-(s+9): the least on the low side, the greatest on the high side.
    fn flow_at(&self, side: Side, own: i64) -> i128
        requires own { IsHead own }
        requires fits { fits self.now }
        ensures value { result ≡ flow side own self.now }
        ensures within { IsMagnitudeAtMost result (weight self.now * unit) };
}

impl Branch for Flow {
    ghost flow = { λ side v. flow_bound side };

    ghost weight = { λ x. magnitude x.lo x.hi };

    ghost unit = { 1 };

    ghost fits = { λ x. Unit {0} };

    fn flow_at(&self, side: Side, own: i64) -> i128 {
        side.bound_of(self.lo, self.hi)
    }
}

impl Branch for Fixed {
    ghost flow = { fixed_flow };

    ghost weight = { λ x. x.hi };

    ghost fits = { FixedFits };

    fn flow_at(&self, side: Side, own: i64) -> i128 {
        let head = head_on(side, self.head_lo, self.head_hi);
        branch_flow(side, self.lo, self.hi, rise(head, own))
    }
}

impl Branch for River {
    ghost flow = { river_flow };

    ghost weight = { λ x. x.hi };

    ghost fits = { RiverFits };

    fn flow_at(&self, side: Side, own: i64) -> i128 {
        let stage = head_on(side, self.stage_lo, self.stage_hi);
        let surface = higher(own, head_on(side, self.bottom_hi, self.bottom_lo));
        branch_flow(side, self.lo, self.hi, rise(stage, surface))
    }
}

impl Branch for Drain {
    ghost flow = { drain_flow };

    ghost weight = { λ x. x.hi };

    ghost fits = { DrainFits };

    fn flow_at(&self, side: Side, own: i64) -> i128 {
        let elevation = head_on(side, self.elev_lo, self.elev_hi);
        branch_flow(side, self.lo, self.hi, fall(elevation, own))
    }
}

impl Branch for Evap {
    ghost flow = { evap_flow };

    ghost weight = { λ x. x.hi };

    ghost fits = { EvapFits };

    fn flow_at(&self, side: Side, own: i64) -> i128 {
        let reach = lower(own, head_on(side, self.surf_hi, self.surf_lo));
        let extinction = head_on(side, self.ext_lo, self.ext_hi);
        branch_flow(side, self.lo, self.hi, fall(extinction, reach))
    }
}

fn head_on(side: Side, lo: i64, hi: i64) -> i64
    requires lo { IsHead lo }
    requires hi { IsHead hi }
    ensures value { result ≡ bound_on side lo hi }
    ensures head { IsHead result }
{
    side.bound_of(lo, hi)
}

fn rise(to: i64, from: i64) -> i64
    requires to { IsHead to }
    requires from { IsHead from }
    ensures { result ≡ to -ℤ from }
{
    to - from
}

// The same where `to` is lower, 0 where it is higher.
fn fall(to: i64, from: i64) -> i64
    requires to { IsHead to }
    requires from { IsHead from }
    ensures { result ≡ int_min (to -ℤ from) (pos 0) }
{
    rise(to, from).min(0)
}

fn higher(a: i64, b: i64) -> i64
    requires a { IsHead a }
    requires b { IsHead b }
    ensures value { result ≡ int_max a b }
    ensures head { IsHead result }
{
    a.max(b)
}

fn lower(a: i64, b: i64) -> i64
    requires a { IsHead a }
    requires b { IsHead b }
    ensures value { result ≡ int_min a b }
    ensures head { IsHead result }
{
    a.min(b)
}
