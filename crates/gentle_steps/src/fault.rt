// Why the listed heads of a step don't hold.
ghost use Rattle.std.specs.Prelude.{◌≡◌};
ghost use Rattle.gentle_steps.specs.declared.fault.GentleFault.TheVariants.{Memory as OutOfMemory};
ghost use Rattle.gentle_steps.specs.Steps.{of_bound};

use std::alloc::AllocError;
use step_problem::{BoundFault, NoBound, Place};

/// The first cell, by its number, at which not all heads between the listed ones are gentle; the first place that fails; a refusal of the step; or lack
/// of memory.
#[derive(Clone, Copy)]
pub enum GentleFault {
    Steep(u32),
    Fails(Place),
    Refused(NoBound),
    Memory,
}

impl From<AllocError> for GentleFault {
    ghost from_gives = { λ _ e. e ≡ OutOfMemory };

    fn from(_e: AllocError) -> GentleFault {
        GentleFault::Memory
    }
}

impl From<BoundFault> for GentleFault {
    ghost from_gives = { λ fault e. e ≡ of_bound fault };

    fn from(fault: BoundFault) -> GentleFault {
        match fault {
            BoundFault::NoBound(refusal) => GentleFault::Refused(refusal),
            BoundFault::Memory => GentleFault::Memory,
        }
    }
}
