// A model with its recharge.
ghost use Rattle.std.specs.Prelude.{◌≡◌, IfOk, List};
ghost use Rattle.outside.specs.{TextMay, FileSet, ReadsOn};
ghost use Rattle.record_lines.specs.{Has};
ghost use Rattle.model_types.specs.{HasSize};
ghost use Rattle.stress_packages.specs.Packages.{rch_of, recharge_arrays};

use model_types::{FlowModel, Grid, Listed, Stresses};
use outside::{Folder, InputFault, TextFault};
use period_arrays::{Area, ArrayPackage, read_arrays};
use std::alloc::{AllocError, Global};
use std::mem;

/// The package RCH.
pub struct Recharge;

impl ArrayPackage for Recharge {
    ghost kind = { recharge_arrays };

    fn evaporates() -> bool {
        false
    }

    fn test(
        alloc: Global,
        file: &str,
        grid: &Grid,
        ibound: &[i64],
        option: &i64,
        area: &Area,
    ) -> Result<(), TextFault> {
        Ok(())
    }

    fn put(stresses: &mut Stresses, area: &Area) -> Result<(), AllocError> {
        stresses.recharge = area.rates.again()?;
        stresses.irch = area.layers.again()?;
        Ok(())
    }
}

/// The model with the recharge of a file of the package RCH: the option NRCHOP, and in each stress period the rates and,
/// under option 2, the layers. `file` is the file's name, for refusals, and `folder` has the files that its arrays
/// name. An array that a period reuses is shared, so it is in memory once.
///
/// # Errors
/// The first item that is wrong is refused on its line: OutOfProfile for parameters and for another option,
/// NothingToReuse where there is no array to reuse; CellOutside, with line 0 and the cell, for a layer that the grid
/// lacks. A read fault comes only from the folder. (TM 6-A16, RCH)
#[tactic(auto, unfolding(crate::specs::Packages::rch_of))]
pub fn read_rch<F: Folder>(
    alloc: Global,
    file: &str,
    bytes: &[u8],
    folder: &mut F,
    model: FlowModel,
) -> Result<FlowModel, InputFault>
    requires size { HasSize model.grid }
    requires text { TextMay (F.may folder.old) bytes.now }
    ensures folder { ReadsOn F.Folder folder.old folder.new result }
    ensures model { (files : FileSet) → F.agrees folder.new files → Has (λ m. m) result (rch_of files file.now bytes.now model) }
    ensures grid { IfOk result (λ m. m.grid ≡ model.grid) }
{
    let mut model = model;
    let periods = mem::replace(&mut model.periods, Listed::new(Vec::new(alloc))).into_vec();
    let (grid, ibound) = (&model.grid, model.ibound.as_slice());
    match read_arrays::<Recharge, F>(alloc, file, bytes, folder, grid, ibound, periods) {
        Ok(recharge) => Ok(FlowModel {
            nrchop: recharge.option,
            periods: recharge.periods,
            ..model
        }),
        Err(fault) => {
            drop(model);
            Err(fault)
        }
    }
}
