ghost use Rattle.std.specs.Prelude.{◌≡◌};
ghost use Rattle.step_problem.specs.StepRefusals.{number_of, refusal_of, word_of};
ghost use Rattle.step_problem.specs.declared.refusal.BoundFault.TheVariants.{Memory};

use crate::place::NoBound;
use std::alloc::{AllocError, AllocFailed};

/// Why a step has no bounds, in the order of the numbers.
#[derive(Clone, Copy)]
pub enum StepRefusal {
    /// The conductance to an active neighbour may be 0.
    ConductanceTooSmall,
    /// The conductances of a cell don't fit.
    ConductanceTooLarge,
    /// The flows of a cell, or those of a budget term, don't fit.
    FlowTooLarge,
    /// No lower head holds.
    NoBarrierLow,
    /// No upper head holds.
    NoBarrierHigh,
    /// The lower head is below all heads.
    RangeLow,
    /// The upper head is above all heads.
    RangeHigh,
}

impl StepRefusal {
    /// The number that the refusal is printed with, from 21 to 27.
    pub fn number(self) -> u8
        ensures { result ≡ number_of self }
    {
        match self {
            StepRefusal::ConductanceTooSmall => 21,
            StepRefusal::ConductanceTooLarge => 22,
            StepRefusal::FlowTooLarge => 23,
            StepRefusal::NoBarrierLow => 24,
            StepRefusal::NoBarrierHigh => 25,
            StepRefusal::RangeLow => 26,
            StepRefusal::RangeHigh => 27,
        }
    }

    /// The refusal that has this number.
    pub fn of_number(number: u8) -> Option<StepRefusal>
        ensures { result ≡ refusal_of number }
    {
        match number {
            21 => Some(StepRefusal::ConductanceTooSmall),
            22 => Some(StepRefusal::ConductanceTooLarge),
            23 => Some(StepRefusal::FlowTooLarge),
            24 => Some(StepRefusal::NoBarrierLow),
            25 => Some(StepRefusal::NoBarrierHigh),
            26 => Some(StepRefusal::RangeLow),
            27 => Some(StepRefusal::RangeHigh),
            _ => None,
        }
    }

    /// The word that the refusal is printed with.
    pub fn word(self) -> &'static str
        ensures { result.now ≡ word_of self }
    {
        match self {
            StepRefusal::ConductanceTooSmall => "ConductanceTooSmall",
            StepRefusal::ConductanceTooLarge => "ConductanceTooLarge",
            StepRefusal::FlowTooLarge => "FlowTooLarge",
            StepRefusal::NoBarrierLow => "NoBarrierLow",
            StepRefusal::NoBarrierHigh => "NoBarrierHigh",
            StepRefusal::RangeLow => "RangeLow",
            StepRefusal::RangeHigh => "RangeHigh",
        }
    }
}

/// Why a part of a step has no result: a refusal of the step, or out of memory.
#[derive(Clone, Copy)]
pub enum BoundFault {
    NoBound(NoBound),
    Memory,
}

impl From<AllocError> for BoundFault {
    ghost from_gives = { λ _ e. e ≡ Memory };

    fn from(_e: AllocError) -> BoundFault {
        BoundFault::Memory
    }
}

impl<T: Drop> From<AllocFailed<T>> for BoundFault {
    ghost from_gives = { λ _ e. e ≡ Memory };

    fn from(_e: AllocFailed<T>) -> BoundFault {
        BoundFault::Memory
    }
}
