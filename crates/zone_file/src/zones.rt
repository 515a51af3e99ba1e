// The zones of a model's cells.
ghost use Rattle.std.specs.Prelude.{◌≡◌, IfOk, length, All, List, not, ◌≤◌, map, unsigned_abs};
ghost use Rattle.outside.specs.{FileSet, ReadsOn, folder_name};
ghost use Rattle.record_lines.specs.{Has, HasText};
ghost use Rattle.model_types.specs.{cell_count, HasSize};
ghost use Rattle.zone_file.specs.{IsZone, zones_of, is_zone, zones_tested};
ghost use Rattle.std.specs.List.{position};

use array_reader::{name_of, read_layers};
use model_types::{FlowModel, Grid};
use outside::{Code, Folder, InputFault, TextFault, read_input};
use period_arrays::cell_refused;
use record_lines::Lines;
use std::alloc::{AllocError, Global};

/// The zones of a model, one for each cell: 1 to 999, or 0 for a cell in no zone. `name` is the name of their file as a
/// command gives it, which may be any text, and `folder` has this file and those that its arrays name.
///
/// # Errors
/// BadName, with the file `-` and line 0, before any file is read; then MissingFile or TooLong with line 0; then what
/// is wrong in an array, on its line; and once all are read, BadProperty, with line 0 and the cell, for the first cell
/// whose number is below 0 or above 999. A read fault comes only from the folder. (This program's own; TM 6-A16, array
/// reader U2DINT)
#[tactic(auto, unfolding(crate::specs::Zones::zones_of))]
pub fn read_zones<F: Folder>(
    alloc: Global,
    model: &FlowModel,
    name: &str,
    folder: &mut F,
) -> Result<Vec<i64>, InputFault>
    requires size { HasSize model.now.grid }
    requires may { F.may folder.old (folder_name name.now) }
    ensures folder { ReadsOn F.Folder folder.old folder.new result }
    ensures zones { (files : FileSet) → F.agrees folder.new files → Has (λ v. v.items) result (zones_of files model.now.grid name.now) }
    ensures count { IfOk result (λ v. length v.items ≡ cell_count model.now.grid) }
    ensures limits { IfOk result (λ v. All IsZone v.items) }
{
    let grid = &model.grid;
    let (layers, rows, cols) = (grid.layers, grid.rows, grid.cols);
    let file = name_of(alloc, name.as_bytes(), "-", 0)?;
    let bytes = read_input(alloc, folder, file)?;
    let mut lines = Lines::new(&bytes);
    let zones = read_layers::<i64, F>(alloc, &mut lines, file, folder, layers, rows, cols)?;
    folder.some_agree();
    test_zones(alloc, file, grid, &zones)?;
    Ok(zones)
}

// The limits of a zone's number.

fn is_zone(number: i64) -> bool
    ensures { result ≡ is_zone number }
{
    0 <= number && number <= 999
}

// The first cell whose number isn't from 0 to 999.
fn first_wrong(zones: &[i64]) -> Option<usize>
    ensures { result ≡ position (λ z. not (is_zone z)) zones.now }
{
    zones.iter().position(|zone| !is_zone(*zone))
}

/// The first cell, by ascending number, whose zone is below 0 or above 999 is refused, with line 0 and its layer, row
/// and column.
#[tactic(auto, unfolding(crate::specs::Zones::zones_tested))]
pub fn test_zones(alloc: Global, file: &str, grid: &Grid, zones: &[i64]) -> Result<(), TextFault>
    requires size { HasSize grid.now }
    requires count { length zones.now ≡ cell_count grid.now }
    ensures { HasText (λ _. tt) result (zones_tested file.now grid.now zones.now) }
{
    match first_wrong(zones) {
        None => Ok(()),
        Some(cell) => Err(cell_refused(alloc, Code::BadProperty, file, grid, cell as u32)),
    }
}

// The numbers of zones, as they are counted with.

// A zone's number, which is no more than 999.
fn zone_number(zone: i64) -> u32
    requires { IsZone zone }
    ensures value { result ≡ unsigned_abs zone }
    ensures limit { result ≤ 999 }
{
    zone.unsigned_abs() as u32
}

/// The same zones, each 0 to 999, as unsigned numbers.
pub fn zone_numbers(alloc: Global, zones: &[i64]) -> Result<Vec<u32>, AllocError>
    requires { All IsZone zones.now }
    ensures numbers { IfOk result (λ v. v.items ≡ map unsigned_abs zones.now) }
    ensures limits { IfOk result (λ v. All (λ z. z ≤ 999) v.items) }
{
    let mut numbers = Vec::new(alloc);
    for zone in zones {
        numbers.push(zone_number(*zone))?;
    }
    Ok(numbers)
}
