// A model with its evapotranspiration.
ghost use Rattle.std.specs.Prelude.{◌≡◌, IfOk, List};
ghost use Rattle.outside.specs.{TextMay, FileSet, ReadsOn};
ghost use Rattle.record_lines.specs.{Has};
ghost use Rattle.model_types.specs.{HasSize};
ghost use Rattle.evt_package.specs.Evaporation.{evaporation_arrays, evt_of};

use crate::columns::test_columns;
use model_types::{FlowModel, Grid, Listed, Stresses};
use outside::{Folder, InputFault, TextFault};
use period_arrays::{Area, ArrayPackage, read_arrays};
use std::alloc::{AllocError, Global};
use std::mem;

/// The package EVT.
pub struct Evapotranspiration;

impl ArrayPackage for Evapotranspiration {
    ghost kind = { evaporation_arrays };

    fn evaporates() -> bool {
        true
    }

    fn test(
        alloc: Global,
        file: &str,
        grid: &Grid,
        ibound: &[i64],
        option: &i64,
        area: &Area,
    ) -> Result<(), TextFault> {
        test_columns(alloc, file, grid, ibound, option, area)
    }

    fn put(stresses: &mut Stresses, area: &Area) -> Result<(), AllocError> {
        stresses.surf = area.surfaces.again()?;
        stresses.evtr = area.rates.again()?;
        stresses.exdp = area.depths.again()?;
        stresses.ievt = area.layers.again()?;
        Ok(())
    }
}

/// The model with the evapotranspiration of a file of the package EVT: the option NEVTOP, and in each stress period the
/// surfaces, greatest rates and extinction depths and, under option 2, the layers. `file` is the file's name, for
/// refusals, and `folder` has the files that its arrays name. An array that a period reuses is shared, so it is in
/// memory once.
///
/// # Errors
/// The first item that is wrong is refused on its line: OutOfProfile for parameters and for another option,
/// NothingToReuse where there is no array to reuse; with line 0 and the cell CellOutside for a layer that the grid
/// lacks, and, once all arrays of a period are read, BadProperty or HeadTooLarge at an active cell that is chosen. A read
/// fault comes only from the folder. (TM 6-A16, EVT)
#[tactic(auto, unfolding(crate::specs::Evaporation::evt_of))]
pub fn read_evt<F: Folder>(
    alloc: Global,
    file: &str,
    bytes: &[u8],
    folder: &mut F,
    model: FlowModel,
) -> Result<FlowModel, InputFault>
    requires size { HasSize model.grid }
    requires text { TextMay (F.may folder.old) bytes.now }
    ensures folder { ReadsOn F.Folder folder.old folder.new result }
    ensures model { (files : FileSet) → F.agrees folder.new files → Has (λ m. m) result (evt_of files file.now bytes.now model) }
    ensures grid { IfOk result (λ m. m.grid ≡ model.grid) }
{
    let mut model = model;
    let periods = mem::replace(&mut model.periods, Listed::new(Vec::new(alloc))).into_vec();
    let (grid, ibound) = (&model.grid, model.ibound.as_slice());
    match read_arrays::<Evapotranspiration, F>(alloc, file, bytes, folder, grid, ibound, periods) {
        Ok(evaporation) => Ok(FlowModel {
            nevtop: evaporation.option,
            periods: evaporation.periods,
            ..model
        }),
        Err(fault) => {
            drop(model);
            Err(fault)
        }
    }
}
