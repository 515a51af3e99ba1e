// The first difference of a package in the stress periods.
ghost use Rattle.std.specs.Prelude.{◌≡◌, None, length};
ghost use Rattle.std.specs.List.{AllZip};
ghost use Rattle.deck_span.specs.{Finds, InOrder, SharesIn, SharesTimes, IsCellIn, IsPeriodCell};

use crate::lists::{idle_apart, list_apart, same_length};
use model_types::{CellId, Period};
use name_file::Package;

// Whether two periods have the same times, which have no cell.
fn same_times(p: &Period, q: &Period) -> Result<(), Option<CellId>>
    ensures { Finds (SharesTimes p.now q.now) (λ cell. cell ≡ None) result }
{
    if p.perlen == q.perlen && p.nstp == q.nstp && p.tsmult == q.tsmult && p.steady == q.steady {
        Ok(())
    } else {
        Err(None)
    }
}

// The cell at which two periods differ first in a package.
fn period_apart(kind: Package, cells: u32, p: &Period, q: &Period) -> Result<(), Option<CellId>>
    ensures { Finds (SharesIn kind p.now q.now) (IsCellIn kind cells p.now q.now) result }
{
    let (s, t) = (&p.stresses, &q.stresses);
    match kind {
        Package::Dis => same_times(p, q),
        Package::Bas | Package::Lpf => Ok(()),
        Package::Wel => list_apart(cells, s.wells.as_slice(), t.wells.as_slice()),
        Package::Riv => list_apart(cells, s.rivers.as_slice(), t.rivers.as_slice()),
        Package::Drn => list_apart(cells, s.drains.as_slice(), t.drains.as_slice()),
        Package::Ghb => list_apart(cells, s.generals.as_slice(), t.generals.as_slice()),
        Package::Chd => list_apart(cells, s.given.as_slice(), t.given.as_slice()),
        Package::Rch => {
            same_length(s.recharge.as_slice(), t.recharge.as_slice())?;
            list_apart(cells, s.irch.as_slice(), t.irch.as_slice())
        }
        Package::Evt => {
            same_length(s.surf.as_slice(), t.surf.as_slice())?;
            idle_apart(cells, s.evtr.as_slice(), t.evtr.as_slice())?;
            list_apart(cells, s.exdp.as_slice(), t.exdp.as_slice())?;
            list_apart(cells, s.ievt.as_slice(), t.ievt.as_slice())
        }
    }
}

/// The cell at which the stress periods of two models differ first in a package.
pub fn periods_apart(
    kind: Package,
    cells: u32,
    ps: &[Period],
    qs: &[Period],
) -> Result<(), Option<CellId>>
    ensures { Finds (AllZip (SharesIn kind) ps.now qs.now)
        (λ cell. InOrder (length qs.now ≡ length ps.now) (cell ≡ None) (IsPeriodCell kind cells ps.now qs.now cell)) result }
{
    same_length(ps, qs)?;
    for i in 0..ps.len() {
        period_apart(kind, cells, &ps[i], &qs[i])?;
    }
    Ok(())
}
