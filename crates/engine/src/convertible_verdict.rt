// The end of a check of a listing of a model with convertible layers with a verdict.
ghost use Rattle.std.specs.Prelude.{◌≡◌, IfOk};
ghost use Rattle.model_types.specs.{HasSize};
ghost use Rattle.run_puts.specs.{IsEnd, PutsMore};
ghost use Rattle.engine.specs.{gentle_verdict_line, gentle_verdict_status};

use gentle_run::GentleVerdict;
use listing_io::{write_no_bound, write_not_certified, write_not_gentle};
use model_types::Grid;
use outside::Sink;
use run_puts::{Status, put_line};
use std::alloc::{AllocError, Global};
use step_problem::{Place, Side};

// The line of a verdict.
fn line_of(alloc: Global, grid: &Grid, verdict: GentleVerdict) -> Result<Vec<u8>, AllocError>
    requires { HasSize grid.now }
    ensures { IfOk result (λ line. line.items ≡ gentle_verdict_line grid.now verdict) }
{
    match verdict {
        GentleVerdict::Certified => Vec::from_slice(alloc, b"CERTIFIED\n"),
        GentleVerdict::Steep(at, cell) => write_not_gentle(alloc, grid, at, cell),
        GentleVerdict::Fails(at, place) => write_not_certified(alloc, grid, at, place),
        GentleVerdict::Refused(at, refusal) => write_no_bound(alloc, grid, at, refusal),
    }
}

// The status of a check with a verdict.
fn status_of(verdict: GentleVerdict) -> Status
    ensures { result ≡ gentle_verdict_status verdict }
{
    match verdict {
        GentleVerdict::Certified => Status::Ok,
        GentleVerdict::Steep(at, cell) => Status::NotCertified {
            period: at.period,
            step: at.step,
            place: Place::Cell(cell, Side::Low),
        },
        GentleVerdict::Fails(at, place) => Status::NotCertified {
            period: at.period,
            step: at.step,
            place,
        },
        GentleVerdict::Refused(at, fault) => Status::NoBound {
            period: at.period,
            step: at.step,
            fault,
        },
    }
}

/// Puts the line of a verdict.
pub(crate) fn put_gentle_verdict<K: Sink>(
    alloc: Global,
    grid: &Grid,
    verdict: GentleVerdict,
    out: &mut K,
) -> Status
    requires { HasSize grid.now }
    ensures { PutsMore K.leads out.old out.new (IsEnd (gentle_verdict_line grid.now verdict) (gentle_verdict_status verdict) result) }
{
    let line = line_of(alloc, grid, verdict);
    put_line(out, line, status_of(verdict))
}
