// The cells that receive recharge, and those that evaporate.
ghost use Rattle.std.specs.Prelude.{◌≡◌, ◌+◌, ◌<◌, ◌==◌, ◌&&◌, ◌||◌};
ghost use Rattle.model_types.specs.{cell_count, layer_of, place_in_layer, HasSize, int_at, is_active, is_int, is_highest, is_chosen};

use model_types::FlowModel;
use model_types::layers::int_at;

// Whether no cell above this one in its column of layers is active.
fn is_highest(model: &FlowModel, cell: u32) -> bool
    requires { HasSize model.now.grid }
    ensures { result ≡ is_highest model.now cell }
{
    let layer = model.grid.layer_size();
    let mut above = cell;
    while above >= layer {
        above -= layer;
        if model.is_active(above) {
            return false;
        }
    }
    true
}

// Whether the cell is active and the highest active one. Each active cell looks up to the next one alone.
fn is_upmost(model: &FlowModel, cell: u32) -> bool
    requires { HasSize model.now.grid }
    ensures { result ≡ (is_active model.now cell && is_highest model.now cell) }
{
    if !model.is_active(cell) {
        return false;
    }
    is_highest(model, cell)
}

fn is_int(z: i64, k: u32) -> bool
    ensures { result ≡ is_int z k }
{
    z == k as i64
}

// Option 1: the cell is in layer 1.
fn is_in_first(model: &FlowModel, option: i64, cell: u32) -> bool
    requires { HasSize model.now.grid }
    ensures { result ≡ (is_int option 1 && (layer_of model.now.grid cell == 0)) }
{
    is_int(option, 1) && cell / model.grid.layer_size() == 0
}

// Option 2: the array names the cell's layer.
fn is_named(model: &FlowModel, option: i64, layers: &[i64], cell: u32) -> bool
    requires size { HasSize model.now.grid }
    requires cell { cell < cell_count model.now.grid }
    ensures { result ≡ (is_int option 2 && is_int (int_at layers.now (place_in_layer model.now.grid cell)) (layer_of model.now.grid cell + 1)) }
{
    let size = model.grid.layer_size();
    is_int(option, 2) && is_int(int_at(layers, cell % size), cell / size + 1)
}

// Option 3: the cell is the highest active one.
fn is_top(model: &FlowModel, option: i64, cell: u32) -> bool
    requires size { HasSize model.now.grid }
    ensures { result ≡ (is_int option 3 && is_active model.now cell && is_highest model.now cell) }
{
    is_int(option, 3) && is_upmost(model, cell)
}

fn any(first: bool, second: bool, third: bool) -> bool
    ensures { result ≡ (first || second || third) }
{
    first || second || third
}

/// Whether an option chooses a cell in its column of layers.
pub fn is_chosen(model: &FlowModel, option: i64, layers: &[i64], cell: u32) -> bool
    requires size { HasSize model.now.grid }
    requires cell { cell < cell_count model.now.grid }
    ensures { result ≡ is_chosen model.now option layers.now cell }
{
    let first = is_in_first(model, option, cell);
    let second = is_named(model, option, layers, cell);
    let third = is_top(model, option, cell);
    any(first, second, third)
}
