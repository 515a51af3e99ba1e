// The trait of a package of arrays.
ghost use Rattle.std.specs.Prelude.{◌≡◌, IfOk};
ghost use Rattle.record_lines.specs.{HasText};
ghost use Rattle.model_types.specs.{HasSize};
ghost use Rattle.period_arrays.specs.Areas.{ArrayKind};
ghost use Rattle.period_arrays.specs.Packages.{IsArea};

use crate::area::Area;
use model_types::{Grid, Stresses};
use outside::TextFault;
use std::alloc::{AllocError, Global};

/// A package of arrays: recharge or evapotranspiration.
pub trait ArrayPackage {
    ghost kind: { ArrayKind };

    /// Whether its files have surfaces and extinction depths.
    fn evaporates() -> bool
        ensures { result ≡ kind.evaporates };

    /// Refuses the first column of layers whose numbers fail a test.
    fn test(
        alloc: Global,
        file: &str,
        grid: &Grid,
        ibound: &[i64],
        option: &i64,
        area: &Area,
    ) -> Result<(), TextFault>
        requires size { HasSize grid.now }
        requires area { IsArea kind.evaporates grid.now option.now area.now }
        ensures { HasText (λ _. tt) result (kind.test file.now grid.now ibound.now option.now area.now) };

    /// Puts these arrays in place of the stresses' earlier ones.
    fn put(stresses: &mut Stresses, area: &Area) -> Result<(), AllocError>
        ensures { IfOk result (λ _. stresses.new ≡ kind.put stresses.old area.now) };
}
