// A search for settled heads below balanced ones.
use crate::extent::Extent;
use crate::links::Links;
use crate::one_side::OneSide;
use crate::raise::raise_within;
use crate::share::{Room, Share};
use crate::work::Work;
use std::alloc::AllocError;
use step_problem::Side;

/// Settled heads, and how far below the balanced ones the search started: by this share of the room.
#[derive(Drop)]
pub struct Settled {
    pub heads: Vec<i64>,
    pub share: Share,
    // The turns in which they settled.
    turns: u64,
}

// The shares to try first with four and with six links of each cell: rounding takes away about two thirds of a cell's slope.
const SHARE_OF_FOUR: i64 = 686_080;

const SHARE_OF_SIX: i64 = 660_600;

/// The share to try first.
pub fn first_share(links: &Links) -> Share {
    let more = links.links_per_cell().clamp(400, 600) as i64 - 400;
    Share(SHARE_OF_FOUR - (SHARE_OF_FOUR - SHARE_OF_SIX) * more / 200)
}

// The least share to try, and a 4th of the first step down, where nothing has settled.
const LEAST: Share = Share(-262_144);

const FIRST_STEP_DOWN: i64 = 4_096;

const MOST_TRIALS: u32 = 60;

// Trials that go up by what the turns of the last one promise; the next ones go four times as far.
const SURE_TRIALS: u32 = 4;

// A search below balanced heads.
#[derive(Drop)]
struct Search<'a> {
    balanced: &'a [i64],
    room: &'a Room,
    extent: &'a Extent,
    // The shares between which the search continues: one that settled, or the least, and one that did not, or the whole.
    low: Share,
    high: Share,
    trials: u32,
    found: Option<Settled>,
}

impl Search<'_> {
    // Whether this is the first trial of the upper side: its share has settled on the lower side, unless both sides go on at once.
    fn is_above(&self, side: &OneSide) -> bool {
        match side.side {
            Side::Low => false,
            Side::High => self.trials == 0,
        }
    }

    // One more trial, from this share.
    fn try_share(&mut self, work: &mut Work, share: Share) -> Result<(), AllocError> {
        let way = |cell| self.room.part(cell, share);
        let mut heads = work.side.heads_below(self.balanced, way)?;
        let most = self
            .extent
            .most_turns(self.found.is_some() || self.is_above(work.side));
        let raised = raise_within(work, &mut heads, None, most)?;
        let turns = raised.turns;
        self.trials = self.trials.saturating_add(1);
        if raised.is_settled {
            self.low = share;
            self.found = Some(Settled {
                heads,
                share,
                turns,
            });
        } else {
            self.high = share;
        }
        Ok(())
    }

    // The next share: up in steps that the turns promise, until one share does not settle; down in steps that grow, until one settles; then the middle.
    fn next_share(&self) -> Share {
        let middle = self.width().0 / 2;
        let step = match &self.found {
            Some(found) if self.high.0 == Share::WHOLE.0 => {
                let is_sure = self.trials <= SURE_TRIALS;
                self.extent
                    .promised_step(found.turns, is_sure)
                    .0
                    .min(middle)
            }
            None if self.trials <= 3 => {
                let step = FIRST_STEP_DOWN.wrapping_shl(self.trials.saturating_mul(2));
                return self.high.minus(Share(step));
            }
            _ => middle,
        };
        self.low.plus(Share(step.max(1)))
    }

    fn width(&self) -> Share {
        self.high.minus(self.low)
    }

    // Whether the heads at both shares are near each other, or the settled ones are so low that falls by a unit cost less than one more trial.
    fn is_done(&self) -> bool {
        let width = self.width();
        let is_near = width.0 <= 1 || self.extent.are_near(width);
        match &self.found {
            Some(found) => is_near || self.extent.is_low(found.turns),
            None => is_near && self.trials > 9,
        }
    }
}

/// Settled heads from balanced ones and the room, with a share of the room that is nearly the greatest possible.
pub fn settled_below(
    work: &mut Work,
    balanced: &[i64],
    room: &Room,
    extent: &Extent,
    first: Share,
) -> Result<Option<Settled>, AllocError> {
    let mut search = Search {
        balanced,
        room,
        extent,
        low: LEAST,
        high: Share::WHOLE,
        trials: 0,
        found: None,
    };
    let mut share = first;
    for _ in 0..MOST_TRIALS {
        search.try_share(work, share)?;
        if search.is_done() || work.budget.is_spent() {
            break;
        }
        share = search.next_share();
    }
    Ok(search.found)
}
