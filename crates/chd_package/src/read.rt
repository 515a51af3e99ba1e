// The reader of files of given heads.
ghost use Rattle.std.specs.Prelude.{◌≡◌, IfOk};
ghost use Rattle.record_lines.specs.{HasText};
ghost use Rattle.model_types.specs.{HasSize};
ghost use Rattle.list_package.specs.{package_of, given_heads};

use list_package::{SpecifiedHeads, read_package};
use model_types::{FlowModel, Given, Limits};
use outside::TextFault;
use std::alloc::Global;

/// The model with its lists of given heads, from a file of the package CHD. `file` is the file's name, for refusals. A
/// period that reuses a list starts again at its heads at the start.
///
/// # Errors
/// The first item that is wrong is refused on its line: TooManyEntries past the most entries of a list, NothingToReuse
/// where the first list is to be reused, OutOfProfile for parameters, another file's entries, or a head that changes in
/// a steady period of growing steps; of an entry CellOutside, HeadTooLarge, or BadProperty where the list has named the
/// cell before. (TM 6-A16, CHD)
pub fn read_chd(
    alloc: Global,
    limits: Limits,
    file: &str,
    bytes: &[u8],
    model: FlowModel,
) -> Result<FlowModel, TextFault>
    requires size { HasSize model.grid }
    ensures model { HasText (λ m. m) result (package_of limits given_heads file.now bytes.now model) }
    ensures grid { IfOk result (λ m. m.grid ≡ model.grid) }
{
    read_package::<Given>(alloc, limits, SpecifiedHeads, file, bytes, model)
}
