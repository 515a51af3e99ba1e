// Whether the listed flows between zones are as wide as those at the listed heads.
ghost use Rattle.std.specs.Prelude.{◌≡◌, ℕ, List, Bool, true, false, map, option_map, IfOk, IfErr, MatchOption};
ghost use Rattle.std.specs.List.{AllZip};
ghost use Rattle.step_problem.specs.declared.place.ZoneFlow.{ZoneFlow as Flow};
ghost use Rattle.problem_builder.specs.{AreGridHeads, IsActive, IsCellNamed};
ghost use Rattle.zone_pairs.specs.{zones_of_flow, AreZones};
ghost use Rattle.listing_run.specs.{AreFlowsOf};
ghost use Rattle.check_run.specs.{CoversFlow, IsFirstNarrow, AreNarrow, AreWide};

use crate::listing::CheckFault;
use listing_run::flows_of;
use model_types::FlowModel;
use std::alloc::Global;
use step_problem::{Bound, Place, Problem, ZoneFlow};

// Whether a listed flow is as wide as a computed one between the same zones.
fn covers(listed: ZoneFlow, computed: ZoneFlow) -> bool
    requires zones { zones_of_flow listed ≡ zones_of_flow computed }
    ensures wide { result ≡ true → CoversFlow listed computed }
    ensures narrow { result ≡ false → CoversFlow listed computed → ⊥ }
{
    listed.lo <= computed.lo && computed.hi <= listed.hi
}

/// The zones of the first listed flow that isn't as wide as the computed one in its place.
pub fn first_narrow(listed: &[ZoneFlow], computed: &[ZoneFlow]) -> Option<(u32, u32)>
    requires zones { map zones_of_flow listed.now ≡ map zones_of_flow computed.now }
    ensures { MatchOption result (AllZip CoversFlow listed.now computed.now) (λ f. IsFirstNarrow listed.now computed.now f.0 f.1) }
{
    for place in 0..listed.len() {
        let flow = listed[place];
        if !covers(flow, computed[place]) {
            return Some((flow.from, flow.to));
        }
    }
    None
}

/// Tests listed flows between the zones of a zone file against those of a problem at these heads of all cells.
pub(crate) fn test_flows(
    alloc: Global,
    model: &FlowModel,
    zones: Option<&[u32]>,
    problem: &Problem,
    heads: &[Bound],
    listed: &[ZoneFlow],
) -> Result<(), CheckFault>
    requires zones { AreZones model.now (option_map (λ z. z.now) zones) }
    requires heads { AreGridHeads model.now heads.now }
    requires named { (c : ℕ) → IsCellNamed problem.now c → IsActive model.now c }
    requires pairs { (flows : List Flow) → AreFlowsOf problem.now heads.now (option_map (λ z. z.now) zones) flows →
        map zones_of_flow listed.now ≡ map zones_of_flow flows }
    ensures wide { IfOk result (λ _. AreWide problem.now heads.now (option_map (λ z. z.now) zones.entry) listed.now) }
    ensures fails { IfErr result (AreNarrow problem.now heads.now (option_map (λ z. z.now) zones.entry) listed.now) }
{
    let computed = flows_of(alloc, model, zones, problem, heads)?;
    match first_narrow(listed, computed.as_slice()) {
        None => Ok(()),
        Some((from, to)) => Err(CheckFault::Fails(Place::Zone(from, to))),
    }
}
