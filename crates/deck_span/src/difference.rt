// The first difference of two models.
ghost use Rattle.std.specs.Prelude.{◌<◌, IfNone, IfSome};
ghost use Rattle.model_types.specs.{cell_count, HasSize};
ghost use Rattle.deck_span.specs.{AreAlike, IsFirstDifference, Finds, Shares, IsCell};

use crate::once::head_apart;
use crate::periods::periods_apart;
use model_types::{CellId, FlowModel};
use name_file::Package;

/// Where two decks differ first: the package, and the cell where there is one.
#[derive(Clone, Copy)]
pub struct Difference {
    pub package: Package,
    pub cell: Option<CellId>,
}

// The packages in the order in which a deck is read.
const READING_ORDER: [Package; 10] = [
    Package::Dis,
    Package::Bas,
    Package::Lpf,
    Package::Wel,
    Package::Riv,
    Package::Drn,
    Package::Ghb,
    Package::Chd,
    Package::Rch,
    Package::Evt,
];

// The cell at which two models differ first in a package.
fn package_apart(kind: Package, a: &FlowModel, b: &FlowModel) -> Result<(), Option<CellId>>
    requires size { HasSize b.now.grid }
    ensures { Finds (Shares kind a.now b.now) (IsCell kind a.now b.now) result }
{
    head_apart(kind, a, b)?;
    periods_apart(
        kind,
        b.grid.cell_count(),
        a.periods.as_slice(),
        b.periods.as_slice(),
    )
}

/// The first difference of two models in the order in which a deck is read: DIS, BAS6, LPF, WEL, RIV, DRN, GHB, CHD,
/// RCH, EVT; None where they are alike.
pub fn first_difference(first: &FlowModel, second: &FlowModel) -> Option<Difference>
    requires size { HasSize second.now.grid }
    ensures alike { IfNone result (AreAlike first.now second.now) }
    ensures unlike { IfSome result (λ d. AreAlike first.now second.now → ⊥) }
    ensures first { IfSome result (IsFirstDifference first.now second.now) }
    ensures cell { IfSome result (λ d. IfSome d.cell (λ c. c.0 < cell_count second.now.grid)) }
{
    for kind in READING_ORDER {
        if let Err(cell) = package_apart(kind, first, second) {
            return Some(Difference {
                package: kind,
                cell,
            });
        }
    }
    None
}
