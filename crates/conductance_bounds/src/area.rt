// The area of a cell.
ghost use Rattle.std.specs.Prelude.{◌<◌, ◌≤◌};
ghost use Rattle.decimal_input.specs.{size};
ghost use Rattle.model_types.specs.{IsPositive};
ghost use Rattle.conductance_bounds.specs.{area_formula, IsOrdered, reach, AreBounds};

use crate::interval::exact_span;
use crate::span::Span;
use decimal_input::dec::Dec;

/// The area of a cell seen from above.
pub(crate) fn area(delr: Dec, delc: Dec) -> Span
    requires delr { IsPositive delr }
    requires delc { IsPositive delc }
    ensures ordered { IsOrdered result }
    ensures bounds { AreBounds (area_formula (size delr) (size delc)) result }
    ensures reach { reach result ≤ 132 }
    ensures positive { 0 < result.lo.m }
{
    exact_span(delr).times(exact_span(delc))
}
