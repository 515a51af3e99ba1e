// How a problem begins, before a guess, and by how many workers it is settled.
ghost use Rattle.std.specs.Prelude.{◌≡◌, ◌/◌, ◌≤◌, max};
ghost use Rattle.settle_driver.specs.{IsPlan};

use settle_driver::Plan;

// Starting a thread takes about as long as some phases of this many cells.
const CELLS_OF_A_WORKER: usize = 64;

// Problems of fewer cells settle by plain turns for a while before a guess is made.
const FEW_CELLS: usize = 16;

const PHASES_OF_FEW: u32 = 64;

// The sweeps of one thread that make as many turns as those phases.
const SWEEPS_OF_FEW: u32 = 4_096;

// The turns of each cell in a short phase: at most three shared ones, and each cell's own.
const SHARED_TURNS: u32 = 3;

const SWEEPS_OF_MANY: u32 = 4;

/// The plan for a problem of this many cells. It has no more workers than one for each 64 cells, and at least one: a thread more would take
/// longer to start than it saves.
pub(crate) fn plan_for(plan: Plan, cells: usize) -> Plan
    requires { IsPlan plan }
    ensures plan { IsPlan result }
    ensures rounds { result.rounds ≡ plan.rounds }
    ensures workers { result.workers ≤ max 1 (cells / 64) }
{
    let most = (cells / CELLS_OF_A_WORKER).max(1);
    let workers = most.min(plan.workers as usize) as u32;
    Plan { workers, ..plan }
}

/// Whether a problem has so few cells that its first phases are many.
pub(crate) fn has_few_cells(cells: usize) -> bool {
    cells < FEW_CELLS
}

/// How many sweeps of one thread come before a guess.
pub(crate) fn first_sweeps(cells: usize) -> u32 {
    if has_few_cells(cells) {
        SWEEPS_OF_FEW
    } else {
        SWEEPS_OF_MANY
    }
}

/// How many phases of workers come before a guess.
pub(crate) fn first_phases(cells: usize) -> u32
    ensures { 1 ≤ result }
{
    if has_few_cells(cells) {
        PHASES_OF_FEW
    } else {
        1
    }
}

/// The phases of workers before a guess: those of the plan where cells are few, else a short one, with no more turns than the plan's own.
pub(crate) fn first_plan(plan: Plan, cells: usize) -> Plan
    requires { IsPlan plan }
    ensures { IsPlan result }
{
    let turns = if has_few_cells(cells) {
        plan.turns_per_cell
    } else {
        plan.turns_per_cell.min(SHARED_TURNS)
    };
    Plan {
        turns_per_cell: turns,
        rounds: first_phases(cells),
        ..plan
    }
}
