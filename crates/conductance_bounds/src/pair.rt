// Two whole bounds.
ghost use Rattle.std.specs.Prelude.{◌≡◌};
ghost use Rattle.decimal_input.specs.{size};
ghost use Rattle.model_types.specs.{IsNotNegative};
ghost use Rattle.conductance_bounds.specs.{Term, Number, small_pair, IsOrdered, AreBounds};

use crate::interval::exact_span;
use crate::span::Span;
use decimal_input::dec::Dec;
use scaled_decimal::{ceil_units, floor_units};

/// A lower and an upper bound of a conductance, in units of 10 ^ -s.
#[derive(Clone, Copy)]
pub struct Pair {
    pub lo: u64,
    pub hi: u64,
}

/// A lower and an upper bound of a flow, in units of 10 ^ -(s + 9).
#[derive(Clone, Copy)]
pub struct FlowPair {
    pub lo: i128,
    pub hi: i128,
}

const TOO_LARGE: u128 = 1 << 60;

/// The whole bounds in units of 10 ^ -s, or None where the upper one is 2 ^ 60 or more.
#[tactic(auto, using(crate::proofs::LayerBounds::pair_lemmas))]
pub(crate) fn rounded_pair(x: Span, s: u32) -> Option<Pair>
    requires ordered { IsOrdered x }
    ensures bounds { (t : Term) → AreBounds t x → result ≡ small_pair t s }
{
    let Some(high) = ceil_units(x.hi, s) else {
        return None;
    };
    let Some(low) = floor_units(x.lo, s) else {
        return None;
    };
    if high < TOO_LARGE {
        Some(Pair {
            lo: low as u64,
            hi: high as u64,
        })
    } else {
        None
    }
}

/// The bounds of a conductance of the input, in units of 10 ^ -s; None where the upper one is 2 ^ 60 or more.
pub fn number_pair(conductance: Dec, s: u32) -> Option<Pair>
    requires { IsNotNegative conductance }
    ensures { result ≡ small_pair (Number (size conductance)) s }
{
    rounded_pair(exact_span(conductance), s)
}
