// A plan's wells, from a file.
ghost use Rattle.std.specs.Prelude.{◌≡◌, IfOk, length, map, replicate};
ghost use Rattle.record_lines.specs.{HasText};
ghost use Rattle.model_types.specs.{HasSize, no_period};
ghost use Rattle.plan_wells.specs.Plans.{IsPlan, plan_of};

use model_types::layers::dec_at;
use model_types::{Entry, FlowModel, Limits, Listed, Period, Shared, Stresses};
use outside::TextFault;
use std::alloc::{AllocError, Global};
use std::marker::Model;
use std::mem;
use stress_packages::read_wel;

/// The wells that a plan adds: a list for each stress period. Contracts see it as these lists.
#[derive(Drop)]
pub struct Plan {
    lists: Vec<Shared<Entry>>,
}

impl Model for Plan {
    ghost use Rattle.std.specs.Prelude.{List};
    ghost use Rattle.model_types.specs.declared.entry.Entry.{Entry};

    ghost Value = { List (List Entry) };

    ghost view = { λ p. p.lists.items };
}

impl Plan {
    /// The list of each stress period.
    pub fn lists(&self) -> &[Shared<Entry>]
        ensures { result.now ≡ self.now }
    {
        self.lists.as_slice()
    }
}

// A stress period without stresses.
fn no_period() -> Period
    ensures { result ≡ no_period }
{
    Period {
        perlen: dec_at(&[], 0),
        nstp: 0,
        tsmult: dec_at(&[], 0),
        steady: true,
        stresses: Stresses::none(),
    }
}

fn no_periods(alloc: Global, count: usize) -> Result<Vec<Period>, AllocError>
    ensures { IfOk result (λ ps. ps.items ≡ replicate count no_period) }
{
    let mut periods = Vec::new(alloc);
    for _ in 0..count {
        periods.push(no_period())?;
    }
    Ok(periods)
}

// The wells of each period.
fn wells_of(alloc: Global, periods: &[Period]) -> Result<Vec<Shared<Entry>>, AllocError>
    ensures { IfOk result (λ lists. lists.items ≡ map (λ p. p.stresses.wells) periods.now) }
{
    let mut lists = Vec::new(alloc);
    for p in periods {
        lists.push(p.stresses.wells.again()?)?;
    }
    Ok(lists)
}

// A model without its stress periods, and these.
#[derive(Drop)]
struct Parted {
    model: FlowModel,
    periods: Listed<Period>,
}

// As many stress periods without stresses in place of a model's.
fn without_stresses(alloc: Global, model: FlowModel) -> Result<Parted, AllocError>
    ensures blank { IfOk result (λ x. x.model ≡ record model { periods = replicate (length model.periods) no_period }) }
    ensures grid { IfOk result (λ x. x.model.grid ≡ model.grid) }
    ensures periods { IfOk result (λ x. x.periods ≡ model.periods) }
{
    let mut model = model;
    let count = model.periods.as_slice().len();
    let blank = Listed::new(no_periods(alloc, count)?);
    let periods = mem::replace(&mut model.periods, blank);
    Ok(Parted { model, periods })
}

// The wells that were read, and the model with its own stress periods again.
fn take_plan(
    alloc: Global,
    read: FlowModel,
    periods: Listed<Period>,
) -> Result<(Plan, FlowModel), AllocError>
    ensures lists { IfOk result (λ x. x.0 ≡ map (λ p. p.stresses.wells) read.periods) }
    ensures same { IfOk result (λ x. x.1 ≡ record read { periods = periods }) }
{
    let mut model = read;
    let lists = wells_of(alloc, model.periods.as_slice())?;
    model.periods = periods;
    Ok((Plan { lists }, model))
}

/// The plan that a file of the package WEL gives, read for the grid and the stress periods of a model, and the model as it was.
/// `file` is the file's name, for refusals.
///
/// # Errors
/// As `read_wel`: the first item that is wrong is refused on its line.
pub fn read_plan(
    alloc: Global,
    limits: Limits,
    file: &str,
    bytes: &[u8],
    model: FlowModel,
) -> Result<(Plan, FlowModel), TextFault>
    requires size { HasSize model.grid }
    ensures plan { HasText (λ x. x.0) result (plan_of limits file.now bytes.now model.grid (length model.periods)) }
    ensures form { IfOk result (λ x. IsPlan limits model.grid (length model.periods) x.0) }
    ensures same { IfOk result (λ x. x.1 ≡ model) }
{
    let parted = without_stresses(alloc, model)?;
    let periods = parted.periods;
    match read_wel(alloc, limits, file, bytes, parted.model) {
        Err(fault) => {
            drop(periods);
            Err(fault)
        }
        Ok(read) => {
            let taken = take_plan(alloc, read, periods)?;
            Ok(taken)
        }
    }
}
