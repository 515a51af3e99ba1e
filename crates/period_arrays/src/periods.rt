// The periods with their arrays.
ghost use Rattle.std.specs.Prelude.{◌≡◌, IfOk, List};
ghost use Rattle.outside.specs.{FileSet, ReadsOn};
ghost use Rattle.record_lines.specs.{LinesMay, Gives, Has};
ghost use Rattle.model_types.specs.{HasSize};
ghost use Rattle.period_arrays.specs.{IsInForce, contents, period_at, periods_of, tested_area};

use crate::area::{InForce, read_area};
use crate::flags::Contents;
use crate::package::ArrayPackage;
use model_types::{Grid, Period};
use outside::{Folder, InputFault, TextFault};
use record_lines::Lines;
use std::alloc::Global;

/// What a file has beside its rates.
fn contents_of<P: ArrayPackage>(option: &i64) -> Contents
    ensures { result ≡ contents P.kind option.now }
{
    Contents {
        evaporates: P::evaporates(),
        layered: *option == 2,
    }
}

/// Reads the arrays of the next period, which are then in force. They are tested.
#[tactic(auto, unfolding(crate::specs::Packages::tested_area))]
fn read_tested_area<P: ArrayPackage, F: Folder>(
    alloc: Global,
    lines: &mut Lines,
    file: &str,
    folder: &mut F,
    grid: &Grid,
    ibound: &[i64],
    option: &i64,
    before: &mut InForce,
) -> Result<(), InputFault>
    requires size { HasSize grid.now }
    requires before { IsInForce P.kind.evaporates grid.now option.now before.old }
    requires lines { LinesMay (F.may folder.old) lines.old }
    ensures folder { ReadsOn F.Folder folder.old folder.new result }
    ensures lines { IfOk result (λ _. LinesMay (F.may folder.new) lines.new) }
    ensures area { (files : FileSet) → F.agrees folder.new files →
        Gives (λ _. before.new.area) result (before.new, lines.new)
        (tested_area P.kind files file.now grid.now ibound.now option.now (before.old, lines.old)) }
    ensures before { IfOk result (λ _. IsInForce P.kind.evaporates grid.now option.now before.new) }
{
    let contents = contents_of::<P>(option);
    read_area(alloc, lines, file, folder, grid, contents, before)?;
    folder.some_agree();
    P::test(alloc, file, grid, ibound, option, &before.area)?;
    Ok(())
}

/// Puts its arrays, which are then in force, into the next period.
#[tactic(auto, unfolding(crate::specs::Packages::period_at))]
fn read_period<P: ArrayPackage, F: Folder>(
    alloc: Global,
    lines: &mut Lines,
    file: &str,
    folder: &mut F,
    grid: &Grid,
    ibound: &[i64],
    option: &i64,
    period: &mut Period,
    before: &mut InForce,
) -> Result<(), InputFault>
    requires size { HasSize grid.now }
    requires before { IsInForce P.kind.evaporates grid.now option.now before.old }
    requires lines { LinesMay (F.may folder.old) lines.old }
    ensures folder { ReadsOn F.Folder folder.old folder.new result }
    ensures lines { IfOk result (λ _. LinesMay (F.may folder.new) lines.new) }
    ensures period { (files : FileSet) → F.agrees folder.new files →
        Gives (λ _. period.new) result (before.new, lines.new)
        (period_at P.kind files file.now grid.now ibound.now option.now period.old (before.old, lines.old)) }
    ensures before { IfOk result (λ _. IsInForce P.kind.evaporates grid.now option.now before.new) }
{
    read_tested_area::<P, F>(alloc, lines, file, folder, grid, ibound, option, before)?;
    P::put(&mut period.stresses, &before.area)?;
    Ok(())
}

/// Puts their arrays into the periods.
#[tactic(auto, unfolding(crate::specs::Packages::periods_of))]
pub fn read_periods<P: ArrayPackage, F: Folder>(
    alloc: Global,
    lines: &mut Lines,
    file: &str,
    folder: &mut F,
    grid: &Grid,
    ibound: &[i64],
    option: &i64,
    periods: &mut [Period],
) -> Result<(), InputFault>
    requires size { HasSize grid.now }
    requires lines { LinesMay (F.may folder.old) lines.old }
    ensures folder { ReadsOn F.Folder folder.old folder.new result }
    ensures lines { IfOk result (λ _. LinesMay (F.may folder.new) lines.new) }
    ensures periods { (files : FileSet) → F.agrees folder.new files →
        Has (λ _. periods.new) result (periods_of P.kind files file.now grid.now ibound.now option.now periods.old lines.old) }
{
    let mut before = InForce::nothing_yet();
    for period in periods.iter_mut() {
        match read_period::<P, F>(
            alloc,
            lines,
            file,
            folder,
            grid,
            ibound,
            option,
            period,
            &mut before,
        ) {
            Ok(()) => {}
            Err(fault) => {
                drop(before);
                return Err(fault);
            }
        }
    }
    drop(before);
    Ok(())
}
