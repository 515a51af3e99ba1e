// Recharge over a cell's area, and flows of the input.
ghost use Rattle.std.specs.Prelude.{◌≡◌, ◌+◌, ◌<◌, ◌≤◌, IfSome};
ghost use Rattle.decimal_input.specs.{IsDec, size, EnclosesSigned};
ghost use Rattle.model_types.specs.{IsPositive};
ghost use Rattle.conductance_bounds.specs.{Term, Number, IsOrdered, reach, AreBounds, recharge_formula, recharge_exact, small_flow};

use crate::interval::exact_span;
use crate::pair::FlowPair;
use crate::span::Span;
use decimal_input::dec::Dec;
use decimal_input::units::with_sign;
use scaled_decimal::{ceil_units, floor_units};

/// The bounds of the flow of recharge into a cell, in units of 10 ^ -(s + 9); None where a magnitude is 2 ^ 126 or
/// more. (TM 6-A16, chapter 6, RCH.)
pub fn recharge_flow(rech: Dec, delr: Dec, delc: Dec, s: u32) -> Option<FlowPair>
    requires rech { IsDec rech }
    requires delr { IsPositive delr }
    requires delc { IsPositive delc }
    requires places { s ≤ 18 }
    ensures rounded { result ≡ small_flow (recharge_formula (size rech) (size delr) (size delc)) rech.neg (s + 9) }
    ensures encloses { IfSome result (λ p. EnclosesSigned p.lo p.hi (s + 9) (recharge_exact rech delr delc)) }
{
    let flow = magnitude(rech)
        .times(exact_span(delr))
        .times(exact_span(delc));
    flow_of(flow, rech.neg, s + 9)
}

/// The bounds of a flow of the input, in units of 10 ^ -(s + 9); None where a magnitude is 2 ^ 126 or more.
pub fn number_flow(q: Dec, s: u32) -> Option<FlowPair>
    requires q { IsDec q }
    requires places { s ≤ 18 }
    ensures { result ≡ small_flow (Number (size q)) q.neg (s + 9) }
{
    flow_of(magnitude(q), q.neg, s + 9)
}

fn magnitude(x: Dec) -> Span
    requires { IsDec x }
    ensures ordered { IsOrdered result }
    ensures bounds { AreBounds (Number (size x)) result }
    ensures reach { reach result ≤ 57 }
{
    let mut plain = x;
    plain.neg = false;
    exact_span(plain)
}

// The whole bounds in units of 10 ^ -places, negated and exchanged for a flow below 0.
#[tactic(auto, using(crate::proofs::LayerBounds::pair_lemmas))]
fn flow_of(x: Span, neg: bool, places: u32) -> Option<FlowPair>
    requires ordered { IsOrdered x }
    ensures bounds { (t : Term) → AreBounds t x → result ≡ small_flow t neg places }
{
    let Some(most) = ceil_units(x.hi, places) else {
        return None;
    };
    let Some(least) = floor_units(x.lo, places) else {
        return None;
    };
    if neg {
        Some(FlowPair {
            lo: with_sign(true, most),
            hi: with_sign(true, least),
        })
    } else {
        Some(FlowPair {
            lo: with_sign(false, least),
            hi: with_sign(false, most),
        })
    }
}
