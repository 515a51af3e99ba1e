// How a plan's listing ends.
ghost use Rattle.std.specs.Prelude.{◌≡◌, IfOk};
ghost use Rattle.model_types.specs.{HasSize};
ghost use Rattle.plan_run.specs.{last_line, status_of};

use model_types::Grid;
use plan_chain::PlanEnd;
use plan_listing::{write_plan_no_bound, write_plan_unfinished};
use run_puts::Status;
use std::alloc::{AllocError, Global};

/// The status of a run whose listing ends so.
pub(crate) fn status_of(end: PlanEnd) -> Status
    ensures { result ≡ status_of end }
{
    match end {
        PlanEnd::Whole => Status::Ok,
        PlanEnd::NoBound(at, _, fault) => Status::NoBound {
            period: at.period,
            step: at.step,
            fault,
        },
        PlanEnd::Unfinished(at, _) => Status::Unfinished {
            period: at.period,
            step: at.step,
        },
    }
}

/// The last line of a listing that ends so.
pub(crate) fn line_of(alloc: Global, grid: &Grid, end: PlanEnd) -> Result<Vec<u8>, AllocError>
    requires { HasSize grid.now }
    ensures { IfOk result (λ line. line.items ≡ last_line grid.now end) }
{
    match end {
        PlanEnd::Whole => Vec::from_slice(alloc, b"END\n"),
        PlanEnd::NoBound(at, part, fault) => write_plan_no_bound(alloc, grid, at, part, fault),
        PlanEnd::Unfinished(at, part) => write_plan_unfinished(alloc, at, part),
    }
}
