// The heads and the differences before a step.
ghost use Rattle.std.specs.Prelude.{◌≡◌, ◌<◌, ◌≤◌, length};
ghost use Rattle.plan_check.specs.{heads_before, lent_heads, step_at};

use plan_chain::PlanHeads;
use plan_listing::{ListedPlanStep, PlanListing};
use step_problem::Bound;

/// The heads of all cells before a step, without the plan's wells and with them, and their differences.
#[derive(Clone, Copy)]
pub struct HeadsBefore<'a> {
    pub base: &'a [Bound],
    pub planned: &'a [Bound],
    pub differences: &'a [Bound],
}

/// A step of a listing, by its index from 0.
pub(crate) fn step_at(listing: &PlanListing, index: usize) -> &ListedPlanStep
    requires { index < length listing.now }
    ensures { result.now ≡ step_at listing.now index }
{
    &listing.as_slice()[index]
}

/// Those before a step: the listing's own of the step before, or the ones of STRT.
pub(crate) fn heads_before<'a>(
    start: &'a PlanHeads,
    listing: &'a PlanListing,
    index: usize,
) -> HeadsBefore<'a>
    requires { index ≤ length listing.now }
    ensures { lent_heads result ≡ heads_before start.now listing.now index }
{
    if index == 0 {
        return HeadsBefore {
            base: start.base.as_slice(),
            planned: start.planned.as_slice(),
            differences: start.differences.as_slice(),
        };
    }
    let step = step_at(listing, index - 1);
    HeadsBefore {
        base: step.base.as_slice(),
        planned: step.planned.as_slice(),
        differences: step.differences.as_slice(),
    }
}
