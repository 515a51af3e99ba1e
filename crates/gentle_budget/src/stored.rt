// What of stored water goes into the variable cells of a step, and out of them.
ghost use Rattle.std.specs.Prelude.{◌≡◌, ◌≤◌, ◌<◌, ℕ, Contains, map, true};
ghost use Rattle.step_problem.specs.declared.place.Dir.TheVariants.{In, Out};
ghost use Rattle.budget_bounds.specs.{IsFlow, IsSum, capped_term, part, plus_pair};
ghost use Rattle.model_types.specs.{IsModel, cell_count, is_active, times, variable_cells};
ghost use Rattle.problem_builder.specs.{AreGridHeads, AreStepTables, AreTables};
ghost use Rattle.water_table.specs.{with_yield};
ghost use Rattle.water_storage.specs.{ArePairs};
ghost use Rattle.gentle_steps.specs.{StoredWaterFits};
ghost use Rattle.gentle_budget.specs.{storage_term, stored_pair};

use budget_bounds::{TermPair, add_part};
use gentle_steps::one_head;
use model_types::{FlowModel, TimeStep};
use problem_builder::{StepTables, Tables};
use step_problem::{Bound, Dir, Problem, Side};
use water_storage::stored_flow;
use water_table::ConvertibleLayers;

/// The sums of what flows in and of what flows out, each of which stops at 2^126.
#[derive(Clone, Copy)]
pub(crate) struct StoredSums {
    pub into: TermPair,
    pub out: TermPair,
}

const NOTHING: TermPair = TermPair { lo: 0, hi: 0 };

// The bounds of the flow of stored water into a cell, for all heads between the listed ones.
fn stored_pair(
    model: &FlowModel,
    layers: &ConvertibleLayers,
    tables: &Tables,
    step: &StepTables,
    at: TimeStep,
    old: &[Bound],
    listed: &[Bound],
    cell: u32,
) -> TermPair
    requires model { IsModel model.now }
    requires yields { IsModel (with_yield model.now layers.now) }
    requires time { Contains (times model.now) at }
    requires digits { tables.now.digits ≤ 18 }
    requires tables { AreTables model.now tables.now.digits tables.now }
    requires step { AreStepTables model.now at step.now }
    requires old { AreGridHeads model.now old.now }
    requires listed { AreGridHeads model.now listed.now }
    requires cell { cell < cell_count model.now.grid }
    requires active { is_active model.now cell ≡ true }
    requires pairs { ArePairs model.now layers.now tables.now.digits at cell }
    ensures value { result ≡ stored_pair model.now layers.now tables.now.digits at old.now listed.now cell }
    ensures flow { IsFlow result }
{
    let before = old[cell as usize];
    let after = listed[cell as usize];
    let low = one_head(after.low);
    let high = one_head(after.high);
    TermPair {
        lo: stored_flow(
            model,
            layers,
            tables,
            step,
            at,
            cell,
            Side::Low,
            before,
            high,
        ),
        hi: stored_flow(
            model,
            layers,
            tables,
            step,
            at,
            cell,
            Side::High,
            before,
            low,
        ),
    }
}

// Sums with one more flow.
fn with_flow(sums: StoredSums, flow: TermPair) -> StoredSums
    requires into { IsSum sums.into }
    requires out { IsSum sums.out }
    requires flow { IsFlow flow }
    ensures into { result.into ≡ capped_term (plus_pair sums.into (part In flow)) }
    ensures into_sum { IsSum result.into }
    ensures out { result.out ≡ capped_term (plus_pair sums.out (part Out flow)) }
    ensures out_sum { IsSum result.out }
{
    StoredSums {
        into: add_part(Dir::In, sums.into, flow),
        out: add_part(Dir::Out, sums.out, flow),
    }
}

/// The sums over all cells of a problem.
pub(crate) fn stored_sums(
    model: &FlowModel,
    layers: &ConvertibleLayers,
    tables: &Tables,
    step: &StepTables,
    at: TimeStep,
    problem: &Problem,
    old: &[Bound],
    listed: &[Bound],
) -> StoredSums
    requires model { IsModel model.now }
    requires yields { IsModel (with_yield model.now layers.now) }
    requires time { Contains (times model.now) at }
    requires digits { tables.now.digits ≤ 18 }
    requires tables { AreTables model.now tables.now.digits tables.now }
    requires step { AreStepTables model.now at step.now }
    requires old { AreGridHeads model.now old.now }
    requires listed { AreGridHeads model.now listed.now }
    requires cells { map (λ e. e.id) problem.now ≡ variable_cells model.now at.period }
    requires stored { (c : ℕ) → c < cell_count model.now.grid → StoredWaterFits model.now layers.now tables.now.digits at c }
    ensures into { result.into ≡ capped_term (storage_term model.now layers.now tables.now.digits at old.now listed.now problem.now In) }
    ensures out { result.out ≡ capped_term (storage_term model.now layers.now tables.now.digits at old.now listed.now problem.now Out) }
{
    let mut sums = StoredSums {
        into: NOTHING,
        out: NOTHING,
    };
    for index in 0..problem.len() {
        let cell = problem.cell(index).id;
        let flow = stored_pair(model, layers, tables, step, at, old, listed, cell);
        sums = with_flow(sums, flow);
    }
    sums
}
