// Why a step of a plan's listing isn't certified.
ghost use Rattle.std.specs.Prelude.{◌≡◌};
ghost use Rattle.plan_check.specs.Parts.{of_bound, of_check, place_in};
ghost use Rattle.plan_check.specs.declared.fault.PlanCheckFault.TheVariants.{Memory as OutOfMemory};

use check_run::CheckFault;
use plan_chain::PlanPart;
use plan_listing::PlanPlace;
use std::alloc::AllocError;
use step_problem::{BoundFault, NoBound, Place};

/// The first place that fails, a refusal of a part of the step, or lack of memory.
#[derive(Clone, Copy)]
pub enum PlanCheckFault {
    Fails(PlanPlace),
    Refused(PlanPart, NoBound),
    Memory,
}

impl From<AllocError> for PlanCheckFault {
    ghost from_gives = { λ _ e. e ≡ OutOfMemory };

    fn from(_e: AllocError) -> PlanCheckFault {
        PlanCheckFault::Memory
    }
}

// The refusals that come with the differences are theirs, and those of the flows.
impl From<BoundFault> for PlanCheckFault {
    ghost from_gives = { λ fault e. e ≡ of_bound fault };

    fn from(fault: BoundFault) -> PlanCheckFault {
        match fault {
            BoundFault::NoBound(refusal) => PlanCheckFault::Refused(PlanPart::Differences, refusal),
            BoundFault::Memory => PlanCheckFault::Memory,
        }
    }
}

// The place of a part's step in a plan's listing.
fn place_in(part: PlanPart, place: Place) -> PlanPlace
    ensures { result ≡ place_in part place }
{
    match place {
        Place::Cell(cell, side) => PlanPlace::Cell(part, cell, side),
        Place::Term(_, term) => PlanPlace::Source(term),
        Place::Zone(from, to) => PlanPlace::Zone(from, to),
    }
}

/// The fault of a plan's step by that of a part of it.
pub(crate) fn in_part(part: PlanPart, fault: CheckFault) -> PlanCheckFault
    ensures { result ≡ of_check part fault }
{
    match fault {
        CheckFault::Fails(place) => PlanCheckFault::Fails(place_in(part, place)),
        CheckFault::Refused(refusal) => PlanCheckFault::Refused(part, refusal),
        CheckFault::Memory => PlanCheckFault::Memory,
    }
}
