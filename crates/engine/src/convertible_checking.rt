// The check of a listing of a model with convertible layers, of the folder.
ghost use Rattle.std.specs.Prelude.{◌≤◌, IfOk, IfSome, None, option_map};
ghost use Rattle.outside.specs.{folder_name, FileSet, IsReading, ReadsOn};
ghost use Rattle.model_types.specs.{IsModel};
ghost use Rattle.zone_pairs.specs.{pairs_in, AreZones};
ghost use Rattle.listing_io.specs.{AreListed};
ghost use Rattle.water_table.specs.{with_yield};
ghost use Rattle.run_puts.specs.{IsRun, NeverCut, PutsMore};
ghost use Rattle.command_line.specs.{CheckConvertible, check_of};
ghost use Rattle.engine.specs.{Answers, IsConvertibleCheck, IsListed, MayRead, ServesAlone, convertible_listing_read, convertible_steps_read, folder_use};
ghost use Rattle.engine.specs.{to_convertible_check};

use crate::convertible_verdict::put_gentle_verdict;
use crate::ending::end_reading;
use crate::reading::{read_file, read_named_convertible, read_zones_of};
use crate::zoned::ZonedListing;
use command_line::CheckOrder;
use gentle_run::check_listing;
use gentle_run::laws::certified_has_history;
use listing_io::{Listing, read_convertible_listing};
use listing_run::zone_slice;
use model_types::FlowModel;
use outside::{Folder, InputFault, Sink};
use run_puts::{Status, put_memory};
use std::alloc::Global;
use water_table::ConvertibleLayers;

// The listing of a model with convertible layers, with these zones, that a check names.
fn read_convertible_steps<F: Folder>(
    alloc: Global,
    folder: &mut F,
    model: &FlowModel,
    asked: CheckOrder,
    zones: Option<&[u32]>,
) -> Result<Listing, InputFault>
    requires model { IsModel model.now }
    requires zones { AreZones model.now (option_map (λ z. z.now) zones) }
    requires may { F.may folder.old (folder_name asked.listing.now) }
    ensures folder { ReadsOn F.Folder folder.old folder.new result }
    ensures reads { (files : FileSet) → F.agrees folder.new files →
        IsReading (λ l. l) (convertible_steps_read files (check_of asked.entry) model.now (option_map (λ z. z.now) zones.entry)) result }
    ensures listed { IfOk result (AreListed model.now (pairs_in model.now (option_map (λ z. z.now) zones.entry))) }
{
    let bytes = read_file(alloc, folder, asked.listing)?;
    let listing = read_convertible_listing(
        alloc,
        model,
        asked.listing,
        bytes.as_slice(),
        asked.digits,
        zones,
    )?;
    Ok(listing)
}

// The listing that a check names, with the zones of its zone file, if there is one, which is read first.
fn read_convertible_listed<F: Folder>(
    alloc: Global,
    folder: &mut F,
    model: &FlowModel,
    asked: CheckOrder,
) -> Result<ZonedListing, InputFault>
    requires model { IsModel model.now }
    requires zones { IfSome (check_of asked).zones (λ zones. F.may folder.old (folder_name zones)) }
    requires may { F.may folder.old (folder_name asked.listing.now) }
    ensures folder { ReadsOn F.Folder folder.old folder.new result }
    ensures reads { (files : FileSet) → F.agrees folder.new files →
        IsReading (λ l. l) (convertible_listing_read files (check_of asked.entry) model.now) result }
    ensures listed { IfOk result (IsListed model.now) }
{
    let zones = read_zones_of(alloc, model, asked.zones, folder)?;
    let steps = read_convertible_steps(alloc, folder, model, asked, zone_slice(&zones))?;
    Ok(ZonedListing { zones, steps })
}

// Checks a listing of a model with convertible layers, and puts the line of its verdict.
fn put_convertible_check<K: Sink>(
    alloc: Global,
    model: &FlowModel,
    layers: &ConvertibleLayers,
    listing: &ZonedListing,
    digits: u32,
    out: &mut K,
) -> Status
    requires model { IsModel model.now }
    requires yields { IsModel (with_yield model.now layers.now) }
    requires digits { digits ≤ 18 }
    requires listing { IsListed model.now listing.now }
    ensures { PutsMore K.leads out.old out.new (IsRun (IsConvertibleCheck model.now layers.now digits listing.now) NeverCut result) }
{
    certified_has_history();
    match check_listing(
        alloc,
        model,
        layers,
        &listing.steps,
        digits,
        zone_slice(&listing.zones),
    ) {
        Ok(verdict) => put_gentle_verdict(alloc, &model.grid, verdict, out),
        Err(_) => put_memory(out),
    }
}

// Reads the zones and a listing of a model with convertible layers, and puts the line of its verdict.
fn check_model<'a, F: Folder, K: Sink>(
    alloc: Global,
    asked: CheckOrder<'a>,
    model: &FlowModel,
    layers: &ConvertibleLayers,
    folder: &mut F,
    out: &mut K,
) -> Status
    requires model { IsModel model.now }
    requires yields { IsModel (with_yield model.now layers.now) }
    requires zones { IfSome (check_of asked).zones (λ zones. F.may folder.old (folder_name zones)) }
    requires may { F.may folder.old (folder_name asked.listing.now) }
    ensures since { (files : FileSet) → F.agrees folder.new files → F.agrees folder.old files }
    ensures answers { PutsMore K.leads out.old out.new (λ more. (files : FileSet) → F.agrees folder.new files →
        Answers (to_convertible_check files (check_of asked.entry) (model.now, layers.now)) (F.faults folder.old) (F.faults folder.new) result more) }
{
    match read_convertible_listed(alloc, folder, model, asked) {
        Ok(listing) => put_convertible_check(alloc, model, layers, &listing, asked.digits, out),
        Err(fault) => end_reading(alloc, fault, out),
    }
}

/// Reads a model with convertible layers of the folder, the zones of its cells, and a listing of it, and puts the line of its verdict.
pub(crate) fn check_convertible<'a, F: Folder, K: Sink>(
    alloc: Global,
    asked: CheckOrder<'a>,
    folder: &mut F,
    out: &mut K,
) -> Status
    requires may { MayRead (F.may folder.old) (check_of asked).name None (check_of asked).zones }
    requires listing { F.may folder.old (folder_name asked.listing.now) }
    ensures since { (files : FileSet) → F.agrees folder.new files → F.agrees folder.old files }
    ensures serves { PutsMore K.leads out.old out.new
        (ServesAlone (CheckConvertible (check_of asked.entry)) (folder_use F.Folder folder.old folder.new) result) }
{
    match read_named_convertible(alloc, asked.limits, folder, asked.name) {
        Ok((model, layers)) => {
            let status = check_model(alloc, asked, &model, &layers, folder, out);
            // by calls, so that the proof has no part for each of their fields
            drop(model);
            drop(layers);
            status
        }
        Err(fault) => end_reading(alloc, fault, out),
    }
}
