// How wide the room of a problem is, and what the turns in which heads settle say of it.
use crate::links::Links;
use crate::share::{Room, Share};
use multigrid::numbers::clamp_long;

// The number of turns at each cell that a trial may take, at least: heads that are settled or a little too low settle in fewer.
const TURNS_OF_TRIAL: u64 = 16;

// Most turns at each cell of a trial, where the room is wide.
const MOST_TURNS_OF_TRIAL: u64 = 48;

// A step up, where turns say nothing of the next share.
const STEP: Share = Share(16_384);

// Heads that start a part of 1 / n of the whole room above the lowest that settle take about n / PARTS turns of each cell more than one.
const PARTS: i128 = 200;

// Falls by a unit that cost less than a trial does in which each cell takes one turn.
const PASSES: i128 = 4;

// In an even problem with n links of each cell, heads that settle in t turns of each cell start about a part of 1 / (t n EVEN_PARTS) of the
// whole room above the lowest that settle.
const EVEN_PARTS: i128 = 30;

// One more trial of an even problem takes the turns of the last one times as many halves.
const HALVES: i128 = 5;

// Heads are near each other if they differ by at most this number of units. Where the room is wide, so that gallops follow anyway, by at most
// 2^-NEAR_BITS of it. Where it is one of the widest, shares for each cell follow, which start from the search's.
const NEAR_UNITS: i128 = 64;

const NEAR_BITS: u32 = 10;

// A wide room, and one of the widest, in units.
const WIDE: i128 = 500_000;

const WIDEST: i128 = 16_000_000;

/// The greatest room, in units, and the number of cells. The wider the room, the further apart the parts of a problem settle by one share for all.
#[derive(Clone, Copy)]
pub struct Extent {
    room: i128,
    cells: u64,
    // EVEN_PARTS for each link of a cell.
    parts: i128,
    // Whether links are much alike, and nearly all balances are straight.
    is_plain: bool,
}

impl Extent {
    /// The extent of a room.
    pub fn new(links: &Links, room: &Room) -> Extent {
        let links_per_cell = links.links_per_cell().max(100) as i128;
        Extent {
            room: room.greatest() as i128,
            cells: links.len() as u64,
            parts: EVEN_PARTS * links_per_cell / 100,
            is_plain: links.are_even() && links.are_nearly_straight(),
        }
    }

    /// Whether links are much alike, nearly all balances are straight, and the room is as narrow as where conductances are alike too. Else some parts
    /// of the problem settle far lower than others, and turns say little of them.
    pub fn is_even(&self) -> bool {
        self.is_plain && self.room <= self.cells as i128
    }

    /// Whether the room is one of the widest.
    pub fn is_widest(&self) -> bool {
        self.room >= WIDEST
    }

    /// A descent is long if it takes more visits than this number of quarters of a cycle of shares: fewer the wider the room is. Most of those
    /// that take fewer end soon.
    pub fn most_quarters(&self) -> u64 {
        if self.room >= WIDEST {
            1
        } else if self.room >= WIDE {
            3
        } else {
            8
        }
    }

    /// The turns of a trial: TURNS_OF_TRIAL of each cell; after a first one in an even problem more, where falls by a unit cost more than those.
    pub fn most_turns(&self, is_next: bool) -> u64 {
        let square = if is_next && self.is_even() {
            self.room.saturating_mul(2).checked_div(self.parts)
        } else {
            None
        };
        let turns = square.unwrap_or(0).unsigned_abs().isqrt();
        let turns = u64::try_from(turns).unwrap_or(TURNS_OF_TRIAL);
        turns
            .clamp(TURNS_OF_TRIAL, MOST_TURNS_OF_TRIAL)
            .saturating_mul(self.cells)
    }

    /// Whether falls by a unit from heads that settled in these turns cost less than one more trial.
    pub fn is_low(&self, turns: u64) -> bool {
        let (turns, cells) = (turns as i128, self.cells as i128);
        let parts = if self.is_even() {
            let parts = turns.saturating_mul(turns).saturating_mul(self.parts);
            parts.saturating_mul(HALVES) / 2
        } else {
            let parts = turns.saturating_mul(turns.saturating_sub(cells));
            parts.saturating_mul(PARTS * PASSES)
        };
        parts >= self.room.saturating_mul(cells).saturating_mul(cells)
    }

    /// Whether heads whose shares differ by this step are near each other.
    pub fn are_near(&self, step: Share) -> bool {
        let units = step.of(clamp_long(self.room));
        let near = if self.room >= WIDE && !self.is_widest() {
            self.room >> NEAR_BITS
        } else {
            NEAR_UNITS
        };
        units <= near
    }

    /// How far up a share can go that settled in these turns, a little less than these promise. Where the room is wide they promise too little:
    /// if it is not to be sure, four times as far.
    pub fn promised_step(&self, turns: u64, is_sure: bool) -> Share {
        let (turns, cells) = (turns as i128, self.cells as i128);
        let whole = (Share::WHOLE.0 as i128).wrapping_mul(cells);
        if self.is_even() {
            let parts = turns.saturating_mul(self.parts);
            return Share(clamp_long(whole.checked_div(parts).unwrap_or(Share::WHOLE.0 as i128)));
        }
        let more = turns.saturating_sub(cells);
        if more <= 0 || !self.is_low(self.most_turns(true)) {
            return STEP;
        }
        let step = whole / 4 * 3;
        let sure = clamp_long(step.checked_div(more.saturating_mul(PARTS)).unwrap_or(0));
        Share(if is_sure {
            sure
        } else {
            sure.saturating_mul(4)
        })
    }
}
