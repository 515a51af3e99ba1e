// The branch of a cell to its old head.
ghost use Rattle.std.specs.Prelude.{◌≡◌};
ghost use Rattle.std.specs.Option.{option_map};
ghost use Rattle.problem_builder.specs.{fixed_over, IsVariableCell, HasStorage, AreInputs, branches_of};

use crate::branches::known_head;
use crate::faces::NO_PAIR;
use crate::input::StepInput;
use crate::storages::storage_at;
use conductance_bounds::Pair;
use step_problem::{Fixed, FixedKind};

// The bounds of a variable cell's storage, rounded for the step.
fn rounded_storage(input: &StepInput, cell: u32) -> Pair
    requires input { AreInputs input.now }
    requires cell { IsVariableCell input.now cell }
    ensures { HasStorage input.now.model input.now.tables.digits input.now.at cell result }
{
    match &input.step.factors {
        Some(factors) => storage_at(input.model, input.tables, input.at.period, factors, cell),
        None => NO_PAIR,
    }
}

// The bounds of a variable cell's storage: those of all steps of its period, or those of the step alone.
fn storage(input: &StepInput, cell: u32) -> Pair
    requires input { AreInputs input.now }
    requires cell { IsVariableCell input.now cell }
    ensures { HasStorage input.now.model input.now.tables.digits input.now.at cell result }
{
    match &input.period.storage {
        Some(even) => even.as_slice()[cell as usize],
        None => rounded_storage(input, cell),
    }
}

/// The branch to the cell's old head, in a transient period, unless storage is left out.
pub fn stored_branch(input: &StepInput, cell: u32) -> Option<Fixed>
    requires input { AreInputs input.now }
    requires cell { IsVariableCell input.now cell }
    ensures { result ≡ option_map (fixed_over input.now.model input.now.tables.digits input.now.at input.now.old (branches_of input.now) cell)
        (branches_of input.now).stored }
{
    if !input.stored {
        return None;
    }
    if input.is_steady() {
        return None;
    }
    let pair = storage(input, cell);
    let head = input.old_head(cell);
    Some(known_head(FixedKind::Storage, cell, pair, head))
}
