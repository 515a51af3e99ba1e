// The first difference of what a package has once.
ghost use Rattle.std.specs.Prelude.{◌≡◌, ◌<◌, MatchBool, length};
ghost use Rattle.std.specs.List.{AllZip};
ghost use Rattle.model_types.specs.{cell_count, layer_size, HasSize};
ghost use Rattle.name_file.specs.declared.package.Package.TheVariants.{Bas, Dis, Lpf};
ghost use Rattle.deck_span.specs.{Finds, IsLayerCell, AreArraysSame, IsFound, SharesBounds, SharesGrid, SharesHead, SharesProperties, IsHeadCell, SharesCounts};
ghost use Rattle.deck_span.specs.{SharesLengths, SharesOptions, SharesSizes, SharesWidths, bottoms, properties};

use crate::cells::{earlier_place, place_apart};
use crate::lists::{Compared, first_apart, list_apart, same_length};
use decimal_input::dec::Dec;
use model_types::{CellId, FlowModel, Grid};
use name_file::Package;

// Whether two options are the same. An option has no cell.
fn same_option(x: i64, y: i64) -> Result<(), Option<CellId>>
    ensures { Finds (y ≡ x) (λ cell. cell ≡ None) result }
{
    if x == y { Ok(()) } else { Err(None) }
}

// Whether two arrays are alike.
fn is_same<T: Compared + Drop>(xs: &[T], ys: &[T]) -> bool
    ensures { MatchBool result (AllZip T.alike xs.now ys.now) (AllZip T.alike xs.now ys.now → ⊥) }
{
    xs.len() == ys.len() && first_apart(xs, ys).is_none()
}

// Whether two arrays have the same numbers.
fn are_numbers_same(xs: &[Dec], ys: &[Dec]) -> bool
    ensures { MatchBool result (ys.now ≡ xs.now) (ys.now ≡ xs.now → ⊥) }
{
    is_same(xs, ys)
}

fn are_integers_same(xs: &[i64], ys: &[i64]) -> bool
    ensures { MatchBool result (ys.now ≡ xs.now) (ys.now ≡ xs.now → ⊥) }
{
    is_same(xs, ys)
}

// Whether two models have as many layers, rows, columns and periods, and one length unit.
fn are_counts_same(a: &FlowModel, b: &FlowModel) -> bool
    ensures { MatchBool result (SharesCounts a.now b.now) (SharesCounts a.now b.now → ⊥) }
{
    a.grid.layers == b.grid.layers
        && a.grid.rows == b.grid.rows
        && a.grid.cols == b.grid.cols
        && a.periods.as_slice().len() == b.periods.as_slice().len()
        && a.lenuni == b.lenuni
}

// Whether two grids have the same beds, widths of columns and widths of rows.
fn are_widths_same(a: &Grid, b: &Grid) -> bool
    ensures { MatchBool result (SharesWidths a.now b.now) (SharesWidths a.now b.now → ⊥) }
{
    are_integers_same(a.laycbd.as_slice(), b.laycbd.as_slice())
        && are_numbers_same(a.delr.as_slice(), b.delr.as_slice())
        && are_numbers_same(a.delc.as_slice(), b.delc.as_slice())
}

fn are_sizes_same(a: &FlowModel, b: &FlowModel) -> bool
    ensures { MatchBool result (SharesSizes a.now b.now) (SharesSizes a.now b.now → ⊥) }
{
    are_counts_same(a, b)
        && are_widths_same(&a.grid, &b.grid)
        && a.grid.bottom.as_slice().len() == b.grid.bottom.as_slice().len()
        && a.grid.bed_bottom.as_slice().len() == b.grid.bed_bottom.as_slice().len()
}

// The place at which the bottoms of layers and beds differ first.
fn bottom_place(layer_size: u32, a: &Grid, b: &Grid) -> Option<usize>
    requires some { 0 < layer_size }
    requires bottom { length b.now.bottom ≡ length a.now.bottom }
    requires bed_bottom { length b.now.bed_bottom ≡ length a.now.bed_bottom }
    ensures { IsFound layer_size (bottoms a.now) (bottoms b.now) result }
{
    let bottom = first_apart(a.bottom.as_slice(), b.bottom.as_slice());
    let bed = first_apart(a.bed_bottom.as_slice(), b.bed_bottom.as_slice());
    earlier_place(layer_size, bottom, bed)
}

// The cell at which the bottoms of layers and beds differ first.
fn bottoms_apart(a: &Grid, b: &Grid) -> Result<(), Option<CellId>>
    requires size { HasSize b.now }
    requires bottom { length b.now.bottom ≡ length a.now.bottom }
    requires bed_bottom { length b.now.bed_bottom ≡ length a.now.bed_bottom }
    ensures { Finds (AreArraysSame (bottoms a.now) (bottoms b.now)) (IsLayerCell (layer_size b.now) (cell_count b.now) (bottoms a.now) (bottoms b.now)) result }
{
    place_apart(b.cell_count(), bottom_place(b.layer_size(), a, b))
}

fn grid_apart(a: &FlowModel, b: &FlowModel) -> Result<(), Option<CellId>>
    requires size { HasSize b.now.grid }
    ensures { Finds (SharesGrid a.now b.now) (IsHeadCell Dis a.now b.now) result }
{
    if !are_sizes_same(a, b) {
        return Err(None);
    }
    list_apart(
        b.grid.cell_count(),
        a.grid.top.as_slice(),
        b.grid.top.as_slice(),
    )?;
    bottoms_apart(&a.grid, &b.grid)
}

fn bounds_apart(a: &FlowModel, b: &FlowModel) -> Result<(), Option<CellId>>
    requires size { HasSize b.now.grid }
    ensures { Finds (SharesBounds a.now b.now) (IsHeadCell Bas a.now b.now) result }
{
    list_apart(
        b.grid.cell_count(),
        a.ibound.as_slice(),
        b.ibound.as_slice(),
    )?;
    same_length(a.strt.as_slice(), b.strt.as_slice())
}

// Whether the arrays of LPF have the same lengths.
fn are_lengths_same(a: &FlowModel, b: &FlowModel) -> bool
    ensures { MatchBool result (SharesLengths a.now b.now) (SharesLengths a.now b.now → ⊥) }
{
    a.hk.as_slice().len() == b.hk.as_slice().len()
        && a.hani.as_slice().len() == b.hani.as_slice().len()
        && a.vka.as_slice().len() == b.vka.as_slice().len()
        && a.ss.as_slice().len() == b.ss.as_slice().len()
        && a.vkcb.as_slice().len() == b.vkcb.as_slice().len()
}

fn are_options_same(a: &FlowModel, b: &FlowModel) -> bool
    ensures { MatchBool result (SharesOptions a.now b.now) (SharesOptions a.now b.now → ⊥) }
{
    a.coefficient == b.coefficient
        && are_integers_same(a.layvka.as_slice(), b.layvka.as_slice())
        && are_lengths_same(a, b)
}

// The place at which the arrays of LPF differ first.
fn property_place(layer_size: u32, a: &FlowModel, b: &FlowModel) -> Option<usize>
    requires some { 0 < layer_size }
    requires lengths { SharesLengths a.now b.now }
    ensures { IsFound layer_size (properties a.now) (properties b.now) result }
{
    let hk = first_apart(a.hk.as_slice(), b.hk.as_slice());
    let hani = first_apart(a.hani.as_slice(), b.hani.as_slice());
    let vka = first_apart(a.vka.as_slice(), b.vka.as_slice());
    let ss = first_apart(a.ss.as_slice(), b.ss.as_slice());
    let vkcb = first_apart(a.vkcb.as_slice(), b.vkcb.as_slice());
    let storage = earlier_place(layer_size, ss, vkcb);
    let vertical = earlier_place(layer_size, vka, storage);
    let across = earlier_place(layer_size, hani, vertical);
    earlier_place(layer_size, hk, across)
}

fn properties_apart(a: &FlowModel, b: &FlowModel) -> Result<(), Option<CellId>>
    requires size { HasSize b.now.grid }
    ensures { Finds (SharesProperties a.now b.now) (IsHeadCell Lpf a.now b.now) result }
{
    if !are_options_same(a, b) {
        return Err(None);
    }
    place_apart(
        b.grid.cell_count(),
        property_place(b.grid.layer_size(), a, b),
    )
}

/// The cell at which two models differ first in what a package has once.
pub fn head_apart(kind: Package, a: &FlowModel, b: &FlowModel) -> Result<(), Option<CellId>>
    requires size { HasSize b.now.grid }
    ensures { Finds (SharesHead kind a.now b.now) (IsHeadCell kind a.now b.now) result }
{
    match kind {
        Package::Dis => grid_apart(a, b),
        Package::Bas => bounds_apart(a, b),
        Package::Lpf => properties_apart(a, b),
        Package::Rch => same_option(a.nrchop, b.nrchop),
        Package::Evt => same_option(a.nevtop, b.nevtop),
        Package::Wel | Package::Riv | Package::Drn | Package::Ghb | Package::Chd => Ok(()),
    }
}
