// The check of a listing.
ghost use Rattle.std.specs.Prelude.{◌≡◌, ◌<◌, ◌≤◌, length, option_map, IfOk};
ghost use Rattle.zone_pairs.specs.{pairs_in, AreZones};
ghost use Rattle.listing_io.specs.{AreListed, step_in};
ghost use Rattle.exact_histories.specs.{HaveOneHistory};
ghost use Rattle.deck_problems.specs.{AreDecks, AreDeckTables, digits_of};
ghost use Rattle.check_run.specs.declared.verdict.ListingVerdict.TheVariants.{Certified};
ghost use Rattle.check_run.specs.Parts.{heads_before, IsChecked, IsVerdictAt, of_bound};
ghost use Rattle.check_run.specs.Verdicts.{IsVerdict, ListingEncloses};
ghost use Rattle.check_run.specs.declared.listing.CheckFault.TheVariants.{Memory as OutOfMemory};

use crate::laws::one_verdict;
use crate::step::check_listed;
use crate::verdict::ListingVerdict;
use deck_problems::{DeckTables, Decks, start_heads_for};
use listing_io::{ListedStep, Listing};
use model_types::{Limits, TimeStep, times};
use std::alloc::{AllocError, Global};
use step_problem::{Bound, BoundFault, NoBound, Place};

// The heads before a step: the listing's own of the step before, or those of STRT.
fn heads_before<'a>(start: &'a [Bound], listing: &'a Listing, index: usize) -> &'a [Bound]
    requires { index ≤ length listing.now }
    ensures { result.now ≡ heads_before start.now listing.now index }
{
    if index == 0 {
        return start;
    }
    step_at(listing, index - 1).heads.as_slice()
}

// A step of a listing, by its index from 0.
fn step_at(listing: &Listing, index: usize) -> &ListedStep
    requires { index < length listing.now }
    ensures { result.now ≡ step_in listing.now index }
{
    &listing.as_slice()[index]
}

// The verdict on a listing from a step's fault at its time.
fn verdict_at(at: TimeStep, fault: CheckFault) -> Result<ListingVerdict, AllocError>
    ensures { IfOk result (IsVerdictAt at fault) }
{
    match fault {
        CheckFault::Fails(place) => Ok(ListingVerdict::Fails(at, place)),
        CheckFault::Refused(refusal) => Ok(ListingVerdict::Refused(at, refusal)),
        CheckFault::Memory => Err(AllocError),
    }
}

// Checks a listing step by step. `tables` are those of the run.
fn check_steps(
    alloc: Global,
    limits: Limits,
    decks: &Decks,
    tables: &mut DeckTables,
    zones: Option<&[u32]>,
    listing: &Listing,
) -> Result<ListingVerdict, AllocError>
    requires decks { AreDecks decks.now }
    requires digits { digits_of tables.old.first ≤ 18 }
    requires zones { AreZones decks.now.first (option_map (λ z. z.now) zones) }
    requires listing { AreListed decks.now.first (pairs_in decks.now.first (option_map (λ z. z.now) zones)) listing.now }
    requires tables { AreDeckTables decks.now (digits_of tables.old.first) tables.old }
    ensures { IfOk result (IsChecked limits decks.now (digits_of tables.old.first) (option_map (λ z. z.now) zones.entry) listing.now) }
{
    one_verdict();
    let start_heads = start_heads_for(alloc, decks)?;
    let start = start_heads.as_slice();
    let times = times(alloc, &decks.first)?;
    for (index, at) in times.as_slice().iter().enumerate() {
        let old = heads_before(start, listing, index);
        let listed = step_at(listing, index);
        let heads = listed.heads.as_slice();
        let flows = listed.zones.as_slice();
        match check_listed(
            alloc,
            limits,
            decks,
            tables,
            *at,
            old,
            zones,
            heads,
            &listed.budget,
            flows,
        ) {
            Ok(()) => {}
            Err(fault) => return verdict_at(*at, fault),
        }
    }
    Ok(ListingVerdict::Certified)
}

/// Checks a listing of a deck, or of all models between two, with s digits of conductances, step by step, each from the listed heads of the one
/// before it, the first from STRT. `zones` has the zone of each cell, if there is a zone file. The first step and place that
/// fails is the verdict, or the first refusal. With wide limits a floor or a ceiling out of the range of heads is cut, and at such
/// a cell the listed head has to hold by its balance.
pub fn check_listing(
    alloc: Global,
    limits: Limits,
    decks: &Decks,
    listing: &Listing,
    s: u32,
    zones: Option<&[u32]>,
) -> Result<ListingVerdict, AllocError>
    requires decks { AreDecks decks.now }
    requires digits { s ≤ 18 }
    requires zones { AreZones decks.now.first (option_map (λ z. z.now) zones) }
    requires listing { AreListed decks.now.first (pairs_in decks.now.first (option_map (λ z. z.now) zones)) listing.now }
    // The listing's one verdict.
    ensures verdict { IfOk result (IsVerdict limits decks.now s (option_map (λ z. z.now) zones.entry) listing.now) }
    ensures only { IfOk result (λ v. (other : ListingVerdict) →
        IsVerdict limits decks.now s (option_map (λ z. z.now) zones.entry) listing.now other → other ≡ v) }
    // Where it is certified, every history that solves the model, or that lies between the two, lies within it, whoever
    // wrote it.
    ensures encloses { IfOk result (λ v. v ≡ Certified → ListingEncloses decks.now s (option_map (λ z. z.now) zones.entry) listing.now) }
    // And there is exactly one such history; of two decks one for each choice between them.
    ensures history { IfOk result (λ v. v ≡ Certified → HaveOneHistory decks.now) }
{
    match DeckTables::new(alloc, decks, s) {
        Ok(mut tables) => check_steps(alloc, limits, decks, &mut tables, zones, listing),
        Err(fault) => Err(fault),
    }
}

// Why a step of a listing isn't certified.

/// The first place that fails, a refusal of the step, or lack of memory.
#[derive(Clone, Copy)]
pub enum CheckFault {
    Fails(Place),
    Refused(NoBound),
    Memory,
}

impl From<AllocError> for CheckFault {
    ghost from_gives = { λ _ e. e ≡ OutOfMemory };

    fn from(_e: AllocError) -> CheckFault {
        CheckFault::Memory
    }
}

impl From<BoundFault> for CheckFault {
    ghost from_gives = { λ fault e. e ≡ of_bound fault };

    fn from(fault: BoundFault) -> CheckFault {
        match fault {
            BoundFault::NoBound(refusal) => CheckFault::Refused(refusal),
            BoundFault::Memory => CheckFault::Memory,
        }
    }
}
