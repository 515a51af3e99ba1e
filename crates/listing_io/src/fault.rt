// Why a listing is not read.
ghost use Rattle.std.specs.Prelude.{◌≡◌};
ghost use Rattle.listing_io.specs.declared.fault.Fault.TheVariants.{Memory};

use std::alloc::{AllocError, AllocFailed};

/// A line of another form than the one due, by its number, or lack of memory.
#[derive(Clone, Copy)]
pub enum Fault {
    BadLine(u32),
    Memory,
}

impl From<AllocError> for Fault {
    ghost from_gives = { λ _ fault. fault ≡ Memory };

    fn from(_: AllocError) -> Fault {
        Fault::Memory
    }
}

impl<T: Drop> From<AllocFailed<T>> for Fault {
    ghost from_gives = { λ _ fault. fault ≡ Memory };

    fn from(_: AllocFailed<T>) -> Fault {
        Fault::Memory
    }
}
