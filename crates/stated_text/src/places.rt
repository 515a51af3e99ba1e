// The place of a refusal in a text.
ghost use Rattle.std.specs.Prelude.{◌≡◌, ◌<◌, IfSome, option_map};
ghost use Rattle.model_types.specs.{cell_count, place, HasSize};
ghost use Rattle.stated_text.specs.{IsMovedFault, IsRefused, in_text, line_of, unlike};

use crate::part::Part;
use crate::text_file::TextFile;
use deck_span::Difference;
use model_types::{CellId, Grid, place_of};
use model_writer::file_in_deck;
use outside::{Code, InputFault, Name, Refusal, TextFault};
use std::alloc::Global;

fn line_of(files: &[TextFile], name: &str) -> Option<u32>
    ensures { result ≡ line_of name.now files.now }
{
    for file in files {
        if name == file.name() {
            return Some(file.line());
        }
    }
    None
}

/// The refusal of a file of the text as one of the text, at its line there; that of another file as it is.
pub(crate) fn in_text(alloc: Global, text: &str, files: &[TextFile], refusal: Refusal) -> TextFault
    ensures { IsRefused (in_text text.now files.now refusal) result }
{
    let Some(line) = line_of(files, refusal.file.as_str()) else {
        return TextFault::Refused(refusal);
    };
    let Refusal {
        code,
        file: _,
        line: in_file,
        at,
    } = refusal;
    match Name::new(alloc, text) {
        Ok(file) => TextFault::Refused(Refusal {
            code,
            file,
            line: line.saturating_add(in_file),
            at,
        }),
        Err(_) => TextFault::Memory,
    }
}

/// The same of a fault. The files are in memory, so one that is no refusal is lack of memory.
pub(crate) fn fault_in_text(
    alloc: Global,
    text: &str,
    files: &[TextFile],
    fault: InputFault,
) -> TextFault
    ensures { IsMovedFault text.now files.now fault result }
{
    match fault {
        InputFault::Refused(refusal) => in_text(alloc, text, files, refusal),
        InputFault::ReadFault | InputFault::Memory => TextFault::Memory,
    }
}

// The layer, row and column of a cell, where there is one.
fn place_if(grid: &Grid, cell: Option<CellId>) -> Option<[u32; 3]>
    requires size { HasSize grid.now }
    requires cell { IfSome cell (λ c. c.0 < cell_count grid.now) }
    ensures { result ≡ option_map (λ c. place grid.now c.0) cell }
{
    match cell {
        Some(cell) => Some(place_of(grid, cell)),
        None => None,
    }
}

/// The refusal of a second deck at its first difference from the first one: of the text, at the line FILE of its file of the
/// package, or of its name file where it has no such package.
pub fn unlike(alloc: Global, text: &str, second: &Part, difference: Difference) -> TextFault
    requires size { HasSize second.now.model.grid }
    requires cell { IfSome difference.cell (λ c. c.0 < cell_count second.now.model.grid) }
    ensures { IsRefused (unlike text.now second.now difference) result }
{
    let at = place_if(&second.model.grid, difference.cell);
    match Name::new(alloc, file_in_deck(&second.model, difference.package)) {
        Ok(file) => {
            let refusal = Refusal {
                code: Code::NotAlike,
                file,
                line: 0,
                at,
            };
            in_text(alloc, text, second.files.as_slice(), refusal)
        }
        Err(_) => TextFault::Memory,
    }
}
