// The end of a check of a plan's listing with a verdict.
ghost use Rattle.std.specs.Prelude.{◌≡◌, IfOk};
ghost use Rattle.model_types.specs.{HasSize};
ghost use Rattle.run_puts.specs.{IsEnd, PutsMore};
ghost use Rattle.engine.specs.{place_of_plan, plan_verdict_line, plan_verdict_status};

use model_types::Grid;
use outside::Sink;
use plan_check::PlanListingVerdict;
use plan_listing::{PlanPlace, write_plan_no_bound, write_plan_not_certified};
use run_puts::{Status, put_line};
use std::alloc::{AllocError, Global};
use step_problem::{Dir, Place};

// The line of a verdict.
fn line_of(alloc: Global, grid: &Grid, verdict: PlanListingVerdict) -> Result<Vec<u8>, AllocError>
    requires { HasSize grid.now }
    ensures { IfOk result (λ line. line.items ≡ plan_verdict_line grid.now verdict) }
{
    match verdict {
        PlanListingVerdict::Certified => Vec::from_slice(alloc, b"CERTIFIED\n"),
        PlanListingVerdict::Fails(at, place) => write_plan_not_certified(alloc, grid, at, place),
        PlanListingVerdict::Refused(at, part, refusal) => {
            write_plan_no_bound(alloc, grid, at, part, refusal)
        }
    }
}

// The place without its part.
fn place_of(place: PlanPlace) -> Place
    ensures { result ≡ place_of_plan place }
{
    match place {
        PlanPlace::Cell(_, cell, side) => Place::Cell(cell, side),
        PlanPlace::Source(term) => Place::Term(Dir::In, term),
        PlanPlace::Zone(from, to) => Place::Zone(from, to),
    }
}

// The status of a check with a verdict.
fn status_of(verdict: PlanListingVerdict) -> Status
    ensures { result ≡ plan_verdict_status verdict }
{
    match verdict {
        PlanListingVerdict::Certified => Status::Ok,
        PlanListingVerdict::Fails(at, place) => Status::NotCertified {
            period: at.period,
            step: at.step,
            place: place_of(place),
        },
        PlanListingVerdict::Refused(at, _, fault) => Status::NoBound {
            period: at.period,
            step: at.step,
            fault,
        },
    }
}

/// Puts the line of a verdict.
pub(crate) fn put_plan_verdict<K: Sink>(
    alloc: Global,
    grid: &Grid,
    verdict: PlanListingVerdict,
    out: &mut K,
) -> Status
    requires { HasSize grid.now }
    ensures { PutsMore K.leads out.old out.new (IsEnd (plan_verdict_line grid.now verdict) (plan_verdict_status verdict) result) }
{
    let line = line_of(alloc, grid, verdict);
    put_line(out, line, status_of(verdict))
}
