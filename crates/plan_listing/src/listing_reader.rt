// The reading of a plan's listing.
ghost use Rattle.std.specs.Prelude.{◌≡◌, ◌≤◌, All, length, option_map, IfOk, IfSome, OnOk};
ghost use Rattle.model_types.specs.{HasSize};
ghost use Rattle.record_lines.specs.{HasText, for_each};
ghost use Rattle.zone_pairs.specs.{pairs_in, ArePairs, CanPair, zones_of};
ghost use Rattle.listing_io.specs.{Gives, Has, ReadsOrStops, text_at};
ghost use Rattle.plan_listing.specs.{AreListedPlan, plan_first_line, plan_listing_at, plan_listing_in, plan_step_at};

use crate::listing::{ListedPlanStep, PlanListing};
use crate::step_reader::read_step;
use listing_io::{AllLines, Fault, push_first_line};
use model_types::{FlowModel, Listed, TimeStep, times};
use outside::{Code, TextFault, text_fault};
use std::alloc::Global;
use zone_pairs::ZonePairs;

fn read_first(
    text: &mut Vec<u8>,
    between: bool,
    model: &FlowModel,
    s: u32,
    lines: &mut AllLines,
) -> Result<(), Fault>
    ensures { ReadsOrStops result lines.new (text_at (plan_first_line between model.now s) lines.old) }
{
    text.clear();
    push_first_line(text, b"DRAWDOWN 1", between, model, s)?;
    lines.expect(text.as_slice())
}

// The step of a time. `pairs` are those of the model, and move to the step's period.
fn read_next(
    alloc: Global,
    text: &mut Vec<u8>,
    model: &FlowModel,
    s: u32,
    pairs: &mut ZonePairs,
    at: TimeStep,
    lines: &mut AllLines,
) -> Result<ListedPlanStep, Fault>
    requires size { HasSize model.now.grid }
    requires digits { s ≤ 18 }
    requires pairs { ArePairs model.now pairs.old }
    requires time { at.period ≤ length model.now.periods }
    ensures pairs { OnOk result (ArePairs model.now pairs.new) }
    ensures zones { zones_of pairs.new ≡ zones_of pairs.old }
    ensures step { Gives (λ x. x) result lines.new (plan_step_at model.now s (pairs_in model.now (zones_of pairs.old)) at lines.old) }
{
    pairs.go_to(alloc, model, at.period)?;
    read_step(alloc, text, model, s, pairs.as_slice(), at, lines)
}

fn read_steps(
    alloc: Global,
    text: &mut Vec<u8>,
    model: &FlowModel,
    s: u32,
    pairs: &mut ZonePairs,
    times: &[TimeStep],
    lines: &mut AllLines,
) -> Result<Vec<ListedPlanStep>, Fault>
    requires size { HasSize model.now.grid }
    requires digits { s ≤ 18 }
    requires pairs { ArePairs model.now pairs.old }
    requires times { All (λ at. at.period ≤ length model.now.periods) times.now }
    ensures { Gives (λ v. v.items) result lines.new (for_each (plan_step_at model.now s (pairs_in model.now (zones_of pairs.old))) times.now lines.old) }
{
    let mut steps = Vec::new(alloc);
    for at in times {
        let step = read_next(alloc, text, model, s, pairs, *at, lines)?;
        steps.push(step)?;
    }
    Ok(steps)
}

#[tactic(auto, unfolding(crate::specs::Reading::plan_listing_at))]
fn read_lines(
    alloc: Global,
    between: bool,
    model: &FlowModel,
    s: u32,
    pairs: &mut ZonePairs,
    lines: &mut AllLines,
) -> Result<Vec<ListedPlanStep>, Fault>
    requires size { HasSize model.now.grid }
    requires few { length model.now.periods ≤ 1000 }
    requires digits { s ≤ 18 }
    requires pairs { ArePairs model.now pairs.old }
    ensures { Has (λ v. v.items) result (plan_listing_at between model.now s (pairs_in model.now (zones_of pairs.old)) lines.old) }
{
    let mut text = Vec::new(alloc);
    let times = times(alloc, model)?;
    read_first(&mut text, between, model, s, lines)?;
    let steps = read_steps(alloc, &mut text, model, s, pairs, times.as_slice(), lines)?;
    lines.expect(b"END")?;
    lines.end()?;
    Ok(steps)
}

// The steps of a plan's listing with these zones.
fn read_zoned(
    alloc: Global,
    between: bool,
    model: &FlowModel,
    s: u32,
    zones: Option<&[u32]>,
    lines: &mut AllLines,
) -> Result<Vec<ListedPlanStep>, Fault>
    requires size { HasSize model.now.grid }
    requires few { length model.now.periods ≤ 1000 }
    requires digits { s ≤ 18 }
    requires zones { IfSome zones (λ z. CanPair model.now z.now) }
    ensures { Has (λ v. v.items) result (plan_listing_at between model.now s (pairs_in model.now (option_map (λ z. z.now) zones.entry)) lines.old) }
{
    let mut pairs = ZonePairs::new(alloc, model, zones)?;
    read_lines(alloc, between, model, s, &mut pairs, lines)
}

/// The listing of a plan in a file, for this model and s digits of conductances: its lines are the first line, the lines of its steps, END, and no others.
/// With `between` it is a listing of two decks, whose first line ends with TO. With a zone file each step has a line ZONE for each pair of zones that
/// share a face in its stress period, in order, else none; `zones` has the zone of each cell. Otherwise the first line of another form is refused as
/// BadListing; a missing line has the number of the last line plus one.
pub fn read_plan_listing(
    alloc: Global,
    between: bool,
    model: &FlowModel,
    file: &str,
    bytes: &[u8],
    s: u32,
    zones: Option<&[u32]>,
) -> Result<PlanListing, TextFault>
    requires size { HasSize model.now.grid }
    requires few { length model.now.periods ≤ 1000 }
    requires digits { s ≤ 18 }
    requires zones { IfSome zones (λ z. CanPair model.now z.now) }
    ensures reads { HasText (λ l. l) result
        (plan_listing_in between model.now s (pairs_in model.now (option_map (λ z. z.now) zones.entry)) file.now bytes.now) }
    ensures listed { IfOk result (λ l. AreListedPlan model.now (pairs_in model.now (option_map (λ z. z.now) zones.entry)) l) }
{
    let mut lines = AllLines::new(bytes);
    match read_zoned(alloc, between, model, s, zones, &mut lines) {
        Ok(steps) => Ok(Listed::new(steps)),
        Err(Fault::BadLine(number)) => Err(text_fault(alloc, Code::BadListing, file, number)),
        Err(Fault::Memory) => Err(TextFault::Memory),
    }
}
