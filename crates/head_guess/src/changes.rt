// How the shares of all cells change.
use crate::branch::product;
use crate::share::Share;
use multigrid::numbers::list_of;
use std::alloc::{AllocError, Global};

/// The next change of each cell's share, in units of 2^-PLACES. A step grows while its share goes on in one direction, and is halved where it
/// turns. It is at most the longest one, which falls from round to round.
#[derive(Drop)]
pub struct Changes {
    steps: Vec<i64>,
    changes: Vec<i64>,
    longest: i64,
}

// The shortest step beside the longest, and the shortest of all in which shares only fall.
const BITS_OF_STEPS: u32 = 8;

const BITS_OF_FALLS: u32 = 4;

const SHORTEST_FALL: i64 = 64;

// A step grows by this number of percent of it, and one down alone.
const GROWTH: i64 = 115;

const GROWTH_OF_FALLS: i64 = 150;

// What is left of the longest step after a round, in units of 2^-10.
const LEFT: i64 = 955;

fn longer_step(step: i64, percent: i64) -> i64 {
    step.saturating_mul(percent) / 100
}

// A step grows while its share goes on in one direction, and is halved where that turns.
fn next_step(step: i64, change: i64, is_low: bool) -> i64 {
    if change != 0 && (change < 0) != is_low {
        step / 2
    } else {
        longer_step(step, GROWTH)
    }
}

impl Changes {
    pub const PLACES: i64 = 30;

    /// The longest step of all.
    pub const LONGEST: i64 = 1 << 26;

    /// Each share becomes this one.
    pub fn new(
        memory: &mut Result<(), AllocError>,
        alloc: Global,
        cells: usize,
        share: Share,
    ) -> Changes {
        Changes {
            steps: list_of(memory, alloc, 0, cells),
            changes: list_of(memory, alloc, share.long(), cells),
            longest: 0,
        }
    }

    /// The flows out of all cells that the changes make.
    pub fn flows(&self, alloc: Global, slopes: &[i64]) -> Result<Vec<i128>, AllocError> {
        let changes = slopes.iter().zip(self.changes.as_slice());
        changes
            .map(|(slope, change)| product(*slope, *change))
            .collect(alloc)
    }

    /// All steps are as long.
    pub fn begin(&mut self, longest: i64) {
        self.longest = longest;
        self.steps.as_mut_slice().fill(longest);
        self.changes.as_mut_slice().fill(0);
    }

    /// Takes the shares down where cells are too low, and up elsewhere.
    pub fn turn(&mut self, are_low: &[bool]) {
        let shortest = (self.longest >> BITS_OF_STEPS).max(1);
        let cells = self.changes.iter_mut().zip(self.steps.iter_mut());
        for ((change, step), is_low) in cells.zip(are_low) {
            let next = next_step(*step, *change, *is_low);
            *step = next.max(shortest).min(self.longest);
            let direction = if *is_low { -1 } else { 1 };
            *change = step.saturating_mul(direction);
        }
        self.longest = (self.longest.saturating_mul(LEFT) >> 10).max(1);
    }

    /// All steps are short ones down.
    pub fn begin_falls(&mut self) {
        let step = (self.longest >> BITS_OF_FALLS).max(SHORTEST_FALL);
        self.steps.as_mut_slice().fill(step);
    }

    /// Takes the shares down where cells are too low, each time further.
    pub fn fall(&mut self, are_low: &[bool]) {
        let cells = self.changes.iter_mut().zip(self.steps.iter_mut());
        for ((change, step), is_low) in cells.zip(are_low) {
            *change = 0;
            if *is_low {
                *change = 0_i64.saturating_sub(*step);
                let next = longer_step(*step, GROWTH_OF_FALLS).saturating_add(1);
                *step = next.min(Changes::LONGEST);
            }
        }
    }
}
