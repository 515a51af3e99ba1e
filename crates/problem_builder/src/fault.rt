// The refusals of a cell.
ghost use Rattle.std.specs.Prelude.{◌≡◌, ◌==◌, ◌&&◌, All};
ghost use Rattle.std.specs.List.{list_any};
ghost use Rattle.step_problem.specs.{RiverFits, EvapFits};
ghost use Rattle.problem_builder.specs.{fault_of, is_branch};

use step_problem::{Cell, Fixed, FixedKind, Link, StepRefusal, conductances_fit, flows_fit};

fn has_small_link(links: &[Link]) -> bool
    ensures { result ≡ list_any (λ x. x.lo == 0) links.now }
{
    links.iter().any(|x| x.lo == 0)
}

fn has_small_constant(fixed: &[Fixed]) -> bool
    ensures { result ≡ list_any (λ x. is_branch x.kind && (x.lo == 0)) fixed.now }
{
    fixed.iter().any(is_small_constant)
}

fn is_small_constant(x: &Fixed) -> bool
    ensures { result ≡ (is_branch x.now.kind && (x.now.lo == 0)) }
{
    match x.kind {
        FixedKind::Constant => x.lo == 0,
        FixedKind::General => false,
        FixedKind::Storage => false,
    }
}

/// The number of the first refusal of a cell, if it has one.
#[tactic(auto, unfolding(crate::specs::Problems::fault_of))]
pub fn fault(cell: &Cell) -> Option<u8>
    requires rivers { All RiverFits cell.now.rivers }
    requires evaps { All EvapFits cell.now.evaps }
    ensures { result ≡ fault_of cell.now }
{
    if has_small_link(&cell.links) {
        Some(StepRefusal::ConductanceTooSmall.number())
    } else if has_small_constant(&cell.fixed) {
        Some(StepRefusal::ConductanceTooSmall.number())
    } else if !conductances_fit(cell) {
        Some(StepRefusal::ConductanceTooLarge.number())
    } else if !flows_fit(cell) {
        Some(StepRefusal::FlowTooLarge.number())
    } else {
        None
    }
}
