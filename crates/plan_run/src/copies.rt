// A second model like one that is kept.
ghost use Rattle.std.specs.Prelude.{◌≡◌, IfOk, List};

use model_types::{FlowModel, Grid, Listed, Period, Stresses};
use std::alloc::{AllocError, Global};

// The same items in memory of their own.
fn copy_of<T: Copy + Drop>(alloc: Global, items: &Listed<T>) -> Result<Listed<T>, AllocError>
    ensures { IfOk result (λ l. l ≡ items.now) }
{
    let copy = Vec::from_slice(alloc, items.as_slice())?;
    Ok(Listed::new(copy))
}

fn copy_grid(alloc: Global, grid: &Grid) -> Result<Grid, AllocError>
    ensures { IfOk result (λ g. g ≡ grid.now) }
{
    let delr = copy_of(alloc, &grid.delr)?;
    let delc = copy_of(alloc, &grid.delc)?;
    let top = copy_of(alloc, &grid.top)?;
    let bottom = copy_of(alloc, &grid.bottom)?;
    let laycbd = copy_of(alloc, &grid.laycbd)?;
    let bed_bottom = copy_of(alloc, &grid.bed_bottom)?;
    Ok(Grid {
        layers: grid.layers,
        rows: grid.rows,
        cols: grid.cols,
        delr,
        delc,
        top,
        bottom,
        laycbd,
        bed_bottom,
    })
}

// The same lists, which stay in memory once.
fn same_stresses(stresses: &Stresses) -> Result<Stresses, AllocError>
    ensures { IfOk result (λ s. s ≡ stresses.now) }
{
    let wells = stresses.wells.again()?;
    let rivers = stresses.rivers.again()?;
    let drains = stresses.drains.again()?;
    let generals = stresses.generals.again()?;
    let given = stresses.given.again()?;
    let recharge = stresses.recharge.again()?;
    let irch = stresses.irch.again()?;
    let surf = stresses.surf.again()?;
    let evtr = stresses.evtr.again()?;
    let exdp = stresses.exdp.again()?;
    let ievt = stresses.ievt.again()?;
    Ok(Stresses {
        wells,
        rivers,
        drains,
        generals,
        given,
        recharge,
        irch,
        surf,
        evtr,
        exdp,
        ievt,
    })
}

fn same_period(period: &Period) -> Result<Period, AllocError>
    ensures { IfOk result (λ p. p ≡ period.now) }
{
    let stresses = same_stresses(&period.stresses)?;
    Ok(Period {
        perlen: period.perlen,
        nstp: period.nstp,
        tsmult: period.tsmult,
        steady: period.steady,
        stresses,
    })
}

fn copy_periods(alloc: Global, periods: &[Period]) -> Result<Vec<Period>, AllocError>
    ensures { IfOk result (λ ps. ps.items ≡ periods.now) }
{
    let mut copy = Vec::new(alloc);
    for period in periods {
        copy.push(same_period(period)?)?;
    }
    Ok(copy)
}

/// A second model like this one. The lists of its stress periods stay in memory once.
pub(crate) fn copy_model(alloc: Global, model: &FlowModel) -> Result<FlowModel, AllocError>
    ensures { IfOk result (λ m. m ≡ model.now) }
{
    let grid = copy_grid(alloc, &model.grid)?;
    let ibound = copy_of(alloc, &model.ibound)?;
    let strt = copy_of(alloc, &model.strt)?;
    let layvka = copy_of(alloc, &model.layvka)?;
    let hk = copy_of(alloc, &model.hk)?;
    let hani = copy_of(alloc, &model.hani)?;
    let vka = copy_of(alloc, &model.vka)?;
    let ss = copy_of(alloc, &model.ss)?;
    let vkcb = copy_of(alloc, &model.vkcb)?;
    let periods = Listed::new(copy_periods(alloc, model.periods.as_slice())?);
    Ok(FlowModel {
        grid,
        lenuni: model.lenuni,
        ibound,
        strt,
        layvka,
        coefficient: model.coefficient,
        hk,
        hani,
        vka,
        ss,
        vkcb,
        nrchop: model.nrchop,
        nevtop: model.nevtop,
        periods,
    })
}
