// The heads before the first time step.
ghost use Rattle.std.specs.Prelude.{IfOk, ◌≡◌, ◌≤◌, ◌^◌, pos};
ghost use Rattle.model_types.specs.{start_head, IsModel, IsNotNegative, IsHeadNumber};
ghost use Rattle.problem_builder.specs.{AreGridHeads, HeadsEnclose, AreStartHeads, IsDepth, cond_pair, well_pair, head_bound, bound_of_pair};
ghost use Rattle.decimal_input.specs.{IsDec};
ghost use Rattle.std.specs.Option.{unwrap_or};

use crate::given::kept_heads;
use conductance_bounds::{
    FlowPair, HeadPair, Pair, head_bounds, number_flow, number_pair, whole_bounds,
};
use decimal_input::dec::Dec;
use model_types::{FlowModel, GivenHeads};
use std::alloc::{AllocError, Global};
use step_problem::Bound;

/// The bounds of STRT of all cells, by cell number, in units of 10^-9: floor and ceiling, or zeros in a cell without
/// flow.
pub fn start_heads(alloc: Global, model: &FlowModel) -> Result<Vec<Bound>, AllocError>
    requires { IsModel model.now }
    ensures bounds { IfOk result (λ v. AreStartHeads model.now v.items) }
    ensures heads { IfOk result (λ v. AreGridHeads model.now v.items) }
    ensures encloses { IfOk result (λ v. HeadsEnclose model.now v.items (start_head model.now)) }
{
    let given = GivenHeads::new(alloc, model);
    let bounds = kept_heads(alloc, model, &given)?;
    Ok(bounds)
}

// Numbers of the input as whole bounds.

/// The pair in place of a conductance whose upper bound reaches 2^60 units.
const OVER_LIMIT: Pair = Pair { lo: 1, hi: 1 << 60 };

/// The pair in place of a flow with a magnitude that reaches 2^126 units.
const FLOW_OVER_LIMIT: FlowPair = FlowPair {
    lo: 1 << 109,
    hi: 1 << 109,
};

/// The pair, or the pair (1, 2^60) that a table keeps in place of one that reaches 2^60 units.
pub fn capped_pair(pair: Option<Pair>) -> Pair
    ensures { result ≡ unwrap_or pair (record { lo = 1; hi = 2 ^ 60 }) }
{
    match pair {
        Some(pair) => pair,
        None => OVER_LIMIT,
    }
}

/// The pair, or that which a table keeps in place of one with a magnitude that reaches 2^126 units.
pub fn capped_flow(pair: Option<FlowPair>) -> FlowPair
    ensures { result ≡ unwrap_or pair (record { lo = pos (2 ^ 109); hi = pos (2 ^ 109) }) }
{
    match pair {
        Some(pair) => pair,
        None => FLOW_OVER_LIMIT,
    }
}

/// The bounds of a conductance of an entry.
pub fn cond_pair(cond: Dec, s: u32) -> Pair
    requires cond { IsNotNegative cond }
    ensures { result ≡ cond_pair s cond }
{
    capped_pair(number_pair(cond, s))
}

/// The bounds of a well's flow.
pub fn well_pair(q: Dec, s: u32) -> FlowPair
    requires q { IsDec q }
    requires places { s ≤ 18 }
    ensures { result ≡ well_pair s q }
{
    capped_flow(number_flow(q, s))
}

/// The bounds of a head of the input.
pub fn head_pair(head: Dec) -> Bound
    requires head { IsHeadNumber head }
    ensures { result ≡ head_bound head }
{
    bound_of(head_bounds(head))
}

/// The bounds of an extinction depth.
pub fn depth_pair(depth: Dec) -> Bound
    requires depth { IsDepth depth }
    ensures { result ≡ head_bound depth }
{
    bound_of(whole_bounds(depth))
}

/// A pair of heads as a bound.
pub fn bound_of(pair: HeadPair) -> Bound
    ensures { result ≡ bound_of_pair pair }
{
    Bound {
        low: pair.lo,
        high: pair.hi,
    }
}

/// The bounds of the head of a cell that has none.
pub const NO_HEADS: Bound = Bound { low: 0, high: 0 };
