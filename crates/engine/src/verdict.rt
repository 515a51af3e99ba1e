// The end of a check with a verdict.
ghost use Rattle.std.specs.Prelude.{◌≡◌, IfOk};
ghost use Rattle.model_types.specs.{HasSize};
ghost use Rattle.run_puts.specs.{IsEnd, PutsMore};
ghost use Rattle.engine.specs.{verdict_line, verdict_status};

use check_run::ListingVerdict;
use listing_io::write_not_certified;
use listing_run::ListingEnd;
use model_types::Grid;
use outside::Sink;
use run_puts::{Status, put_line};
use std::alloc::{AllocError, Global};

// The line of a verdict.
fn verdict_line(alloc: Global, grid: &Grid, verdict: ListingVerdict) -> Result<Vec<u8>, AllocError>
    requires { HasSize grid.now }
    ensures { IfOk result (λ line. line.items ≡ verdict_line grid.now verdict) }
{
    match verdict {
        ListingVerdict::Certified => Vec::from_slice(alloc, b"CERTIFIED\n"),
        ListingVerdict::Fails(at, place) => write_not_certified(alloc, grid, at, place),
        ListingVerdict::Refused(at, fault) => ListingEnd::NoBound(at, fault).line(alloc, grid),
    }
}

// The status of a check with a verdict.
fn verdict_status(verdict: ListingVerdict) -> Status
    ensures { result ≡ verdict_status verdict }
{
    match verdict {
        ListingVerdict::Certified => Status::Ok,
        ListingVerdict::Fails(at, place) => Status::NotCertified {
            period: at.period,
            step: at.step,
            place,
        },
        ListingVerdict::Refused(at, fault) => ListingEnd::NoBound(at, fault).status(),
    }
}

/// Puts the line of a verdict.
pub(crate) fn put_verdict<K: Sink>(
    alloc: Global,
    grid: &Grid,
    verdict: ListingVerdict,
    out: &mut K,
) -> Status
    requires { HasSize grid.now }
    ensures { PutsMore K.leads out.old out.new (IsEnd (verdict_line grid.now verdict) (verdict_status verdict) result) }
{
    let line = verdict_line(alloc, grid, verdict);
    put_line(out, line, verdict_status(verdict))
}
