// The room of a side, and parts of it and of slopes.
use crate::branch::product;
use multigrid::numbers::{at, greatest};
use std::alloc::AllocError;

/// A part of a room, or of a slope that is left as a balance, in 2^-20 of the whole.
#[derive(Clone, Copy)]
pub struct Share(pub i64);

// The bits of a share and of a room below one.
const PLACES: u32 = 20;

const PLACES_OF_ROOM: u32 = 10;

impl Share {
    /// The whole room or slope.
    pub const WHOLE: Share = Share(1_048_576);

    pub fn plus(self, other: Share) -> Share {
        Share(self.0.saturating_add(other.0))
    }

    pub fn minus(self, other: Share) -> Share {
        Share(self.0.saturating_sub(other.0))
    }

    /// This part of a number: of a slope, or of a room in units.
    pub fn of(self, number: i64) -> i128 {
        product(self.0, number).wrapping_shr(PLACES)
    }

    /// The share in 2^-30.
    pub fn long(self) -> i64 {
        self.0.saturating_mul(1 << 10)
    }
}

/// The room at each cell: how far all heads move together when each cell's balance changes by its slope, in 2^-10 units. It is not negative.
#[derive(Drop)]
pub struct Room(pub Vec<i64>);

impl Room {
    /// The greatest room of all cells, in units.
    pub fn greatest(&self) -> i64 {
        greatest(self.0.as_slice()) >> PLACES_OF_ROOM
    }

    /// A share of the room at a cell, in units.
    pub fn part(&self, cell: usize, share: Share) -> i128 {
        share
            .of(at(self.0.as_slice(), cell))
            .wrapping_shr(PLACES_OF_ROOM)
    }

    pub fn try_clone(&self) -> Result<Room, AllocError> {
        Ok(Room(self.0.clone()?))
    }
}
