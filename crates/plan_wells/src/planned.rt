// A model with a plan's wells.
ghost use Rattle.std.specs.Prelude.{◌≡◌, ◌++◌, IfOk, OnOk, length};
ghost use Rattle.record_lines.specs.{HasText};
ghost use Rattle.problem_hull.specs.{zip_with};
ghost use Rattle.plan_wells.specs.{are_few, planned, with_plan, with_wells};

use crate::plan::Plan;
use model_types::{Entry, FlowModel, Listed, Period, Shared, WIDE_COUNT};
use outside::{Code, TextFault, text_fault};
use std::alloc::{AllocError, Global};
use std::mem;

// The most wells of a stress period, of a model that was read by wide limits.
const MOST_WELLS: usize = WIDE_COUNT as usize;

// The entries of two lists, one after the other. A list to which nothing is added stays in memory once.
fn joined(
    alloc: Global,
    first: &Shared<Entry>,
    second: &Shared<Entry>,
) -> Result<Shared<Entry>, AllocError>
    ensures { IfOk result (λ l. l ≡ first.now ++ second.now) }
{
    if second.as_slice().is_empty() {
        return first.again();
    }
    let mut entries = Vec::from_slice(alloc, first.as_slice())?;
    entries.extend_from_slice(second.as_slice())?;
    Shared::new(alloc, entries)
}

fn add_wells(
    alloc: Global,
    periods: &mut [Period],
    lists: &[Shared<Entry>],
) -> Result<(), AllocError>
    requires long { length lists.now ≡ length periods.old }
    ensures { OnOk result (periods.new ≡ zip_with with_wells periods.old lists.now) }
{
    for i in 0..lists.len() {
        let wells = joined(alloc, &periods[i].stresses.wells, &lists[i])?;
        periods[i].stresses.wells = wells;
    }
    Ok(())
}

fn are_few(model: &FlowModel) -> bool
    ensures { result ≡ are_few model.now }
{
    model
        .periods
        .as_slice()
        .iter()
        .all(|p| p.stresses.wells.as_slice().len() <= MOST_WELLS)
}

// The model with the plan's wells, however many they are.
fn with_all(alloc: Global, model: FlowModel, plan: &Plan) -> Result<FlowModel, AllocError>
    requires long { length plan.now ≡ length model.periods }
    ensures { IfOk result (λ m. m ≡ with_plan plan.now model) }
{
    let mut model = model;
    let mut periods = mem::replace(&mut model.periods, Listed::new(Vec::new(alloc))).into_vec();
    let added = add_wells(alloc, periods.as_mut_slice(), plan.lists());
    model.periods = Listed::new(periods);
    match added {
        Ok(()) => Ok(model),
        Err(fault) => {
            drop(model);
            Err(fault)
        }
    }
}

/// The model with the plan's wells after its own in each stress period. `file` is the plan's file, for the refusal.
///
/// # Errors
/// TooManyEntries, with line 0, where a stress period would have more than 4,194,304 wells. With plain limits, by which
/// each of two files gives at most 65,536, that doesn't happen.
pub fn with_plan(
    alloc: Global,
    model: FlowModel,
    plan: &Plan,
    file: &str,
) -> Result<FlowModel, TextFault>
    requires long { length plan.now ≡ length model.periods }
    ensures planned { HasText (λ m. m) result (planned plan.now file.now model) }
{
    let planned = with_all(alloc, model, plan)?;
    if are_few(&planned) {
        Ok(planned)
    } else {
        drop(planned);
        Err(text_fault(alloc, Code::TooManyEntries, file, 0))
    }
}
