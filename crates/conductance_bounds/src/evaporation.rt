// Evapotranspiration as a conductance.
ghost use Rattle.std.specs.Prelude.{◌≡◌, ◌≤◌, IfSome};
ghost use Rattle.decimal_input.specs.{size, Encloses};
ghost use Rattle.model_types.specs.{IsPositive, IsNotNegative};
ghost use Rattle.conductance_bounds.specs.{evap_formula, evap_exact, small_pair};

use crate::area::area;
use crate::interval::exact_span;
use crate::pair::{Pair, rounded_pair};
use decimal_input::dec::Dec;

/// The bounds of evapotranspiration at the rate EVTR over the depth EXDP, as a conductance in units of 10 ^ -s; None
/// where the upper one is 2 ^ 60 or more. (TM 6-A16, chapter 6, EVT.)
pub fn evap_branch(evtr: Dec, exdp: Dec, delr: Dec, delc: Dec, s: u32) -> Option<Pair>
    requires evtr { IsNotNegative evtr }
    requires exdp { IsPositive exdp }
    requires delr { IsPositive delr }
    requires delc { IsPositive delc }
    requires places { s ≤ 18 }
    ensures rounded { result ≡ small_pair (evap_formula (size evtr) (size delr) (size delc) (size exdp)) s }
    ensures encloses { IfSome result (λ p. Encloses p.lo p.hi s (evap_exact evtr exdp delr delc)) }
{
    let rate = exact_span(evtr).times(area(delr, delc));
    rounded_pair(rate.over(exact_span(exdp)), s)
}
