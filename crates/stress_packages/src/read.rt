// The readers of files of wells, rivers, drains and general heads.
//
// Each takes a model and returns it with the lists of the file in its stress periods. `file` is the file's
// name, for refusals. The first item that is wrong is refused on its line: TooManyEntries past the most entries of a list,
// NothingToReuse where the first list is to be reused, OutOfProfile for parameters or another file's entries; of an entry
// CellOutside, HeadTooLarge or BadProperty.
ghost use Rattle.std.specs.Prelude.{◌≡◌, IfOk};
ghost use Rattle.record_lines.specs.{HasText};
ghost use Rattle.model_types.specs.{HasSize};
ghost use Rattle.list_package.specs.{package_of};
ghost use Rattle.stress_packages.specs.{wells, rivers, drains, generals};

use list_package::{ListKind, read_package};
use model_types::{Entry, FlowModel, Limits};
use outside::TextFault;
use std::alloc::Global;

/// The model with its lists of wells, from a file of the package WEL.
/// (TM 6-A16, WEL)
pub fn read_wel(
    alloc: Global,
    limits: Limits,
    file: &str,
    bytes: &[u8],
    model: FlowModel,
) -> Result<FlowModel, TextFault>
    requires size { HasSize model.grid }
    ensures model { HasText (λ m. m) result (package_of limits wells file.now bytes.now model) }
    ensures grid { IfOk result (λ m. m.grid ≡ model.grid) }
{
    read_package::<Entry>(alloc, limits, ListKind::Wells, file, bytes, model)
}

/// The model with its lists of river reaches, from a file of the package RIV.
/// (TM 6-A16, RIV)
pub fn read_riv(
    alloc: Global,
    limits: Limits,
    file: &str,
    bytes: &[u8],
    model: FlowModel,
) -> Result<FlowModel, TextFault>
    requires size { HasSize model.grid }
    ensures model { HasText (λ m. m) result (package_of limits rivers file.now bytes.now model) }
    ensures grid { IfOk result (λ m. m.grid ≡ model.grid) }
{
    read_package::<Entry>(alloc, limits, ListKind::Rivers, file, bytes, model)
}

/// The model with its lists of drains, from a file of the package DRN.
/// (TM 6-A16, DRN)
pub fn read_drn(
    alloc: Global,
    limits: Limits,
    file: &str,
    bytes: &[u8],
    model: FlowModel,
) -> Result<FlowModel, TextFault>
    requires size { HasSize model.grid }
    ensures model { HasText (λ m. m) result (package_of limits drains file.now bytes.now model) }
    ensures grid { IfOk result (λ m. m.grid ≡ model.grid) }
{
    read_package::<Entry>(alloc, limits, ListKind::Drains, file, bytes, model)
}

/// The model with its lists of general heads, from a file of the package GHB.
/// (TM 6-A16, GHB)
pub fn read_ghb(
    alloc: Global,
    limits: Limits,
    file: &str,
    bytes: &[u8],
    model: FlowModel,
) -> Result<FlowModel, TextFault>
    requires size { HasSize model.grid }
    ensures model { HasText (λ m. m) result (package_of limits generals file.now bytes.now model) }
    ensures grid { IfOk result (λ m. m.grid ≡ model.grid) }
{
    read_package::<Entry>(alloc, limits, ListKind::Generals, file, bytes, model)
}
