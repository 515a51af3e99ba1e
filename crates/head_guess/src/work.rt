// Work on one side of a problem.
use crate::one_side::{OneSide, Step};
use multigrid::Budget;
use std::alloc::AllocError;
use step_problem::Side;

/// A side, and the visits that work on it may still take.
#[derive(Drop)]
pub struct Work<'a> {
    pub side: &'a OneSide<'a>,
    pub budget: Budget,
}

impl<'a> Work<'a> {
    /// Work of `visits` visits at each cell.
    pub fn new(side: &'a OneSide<'a>, visits: u64) -> Work<'a> {
        Work {
            side,
            budget: Budget::new(visits, side.len()),
        }
    }
}

/// Both values, or nothing where memory ended for one. They are dropped here in place of at each `?` of their maker.
pub fn both<T: Drop, U: Drop>(
    one: Result<T, AllocError>,
    other: Result<U, AllocError>,
) -> Result<(T, U), AllocError> {
    Ok((one?, other?))
}

/// What is made by work of `visits` visits at each cell of a side. The side is dropped here, in place of at each exit of its maker.
pub fn on_side<T, F: FnOnce(&mut Work) -> Result<T, AllocError> + Drop>(
    step: &Step,
    side: Side,
    visits: u64,
    make: F,
) -> Result<T, AllocError>
    requires { F.IsAlwaysCallable make }
{
    let side = OneSide::new(step, side)?;
    let mut work = Work::new(&side, visits);
    let made = make(&mut work);
    drop(side);
    made
}
