// Newton's method for heads at which each cell's balance is 0.
use crate::branch::{head_on, product};
use crate::linear::Linear;
use crate::one_side::OneSide;
use crate::ramp::Bends;
use crate::work::Work;
use multigrid::numbers::{at, clamp_long, filled_value, list_of, put, shift, width};
use std::alloc::AllocError;
use std::mem;
use step_problem::problem::HEAD_LIMIT;

const MOST_ROUNDS: u32 = 60;

// A round of Newton's method may be the last one if it began with shorter moves than these, by each balance alone and in all: a solved system
// leaves few units of them.
const SHORT: i64 = 1 << 15;

const LONG: i128 = 1 << 24;

// A round is the last one if it moves no head by more than these units: few cells pass a bend.
const STILL: i128 = 256;

// After a round that began with longer moves another one follows in any case where balances bend.
const FAR_FROM_LAST: i64 = 1 << 14;

// The longest move leaves at most this part of it, if its system was solved.
const BITS_OF_SLACK: u32 = 12;

// A round by a solved system leaves at most this part of the longest move by one balance alone, where all balances are straight.
const BITS_SOLVED: u32 = 8;

// The longest last move after which a system still takes all that is left.
const LONGEST_LAST: i128 = 1 << 44;

// Heads are far from the balanced ones where a balance alone would move its head by more than this.
const FAR: i64 = 1 << 36;

// A length unit.
const UNIT: i64 = 1_000_000_000;

// Where balances bend both ways Newton's method need not end. So evaporations stay at their full rate by the heads at which the balances were
// last 0, and all others go on above their surface: then all balances bend one way, and after a first round heads move one way, until the
// balances are 0 again. Heads rise each time, so that more and more evaporations are at their full rate, until none comes to it.
#[derive(Drop)]
struct Newton {
    heads: Vec<i64>,
    // The heads by which evaporations are at their full rate.
    tops: Vec<i64>,
    // How far the heads may be off. A ramp counts unless the head is further below its foot: without its last river or drain a system has no solution.
    slack: i64,
    balances: Vec<i128>,
    slopes: Vec<i64>,
}

impl Newton {
    fn new(side: &OneSide, heads: Vec<i64>) -> Result<Newton, AllocError> {
        let (mut memory, count) = (Ok(()), heads.len());
        let newton = Newton {
            tops: heads.clone()?,
            heads,
            slack: 0,
            balances: list_of(&mut memory, side.alloc, 0, count),
            slopes: list_of(&mut memory, side.alloc, 0, count),
        };
        let mut newton = filled_value(newton, memory)?;
        newton.linearize(side);
        let begun = newton.begin_level(side);
        filled_value(newton, begun)
    }

    fn linearize(&mut self, side: &OneSide) {
        let slack = head_on(side.side, self.slack, self.slack);
        for cell in 0..self.heads.len() {
            let heads = self.heads.as_slice();
            let bends = Bends {
                foot: at(heads, cell).saturating_add(slack),
                top: at(self.tops.as_slice(), cell),
            };
            let (balance, slope) = side.piece_if_free(
                cell,
                at(heads, cell),
                side.piece(cell, heads, bends),
            );
            put(self.balances.as_mut_slice(), cell, balance);
            put(self.slopes.as_mut_slice(), cell, slope);
        }
    }

    // Evaporations are at their full rate by the heads as they are now. Returns whether that changes any.
    fn set_tops(&mut self, side: &OneSide) -> bool {
        let mut has_changed = false;
        for (cell, head) in self.heads.iter().enumerate() {
            let top = at(self.tops.as_slice(), cell);
            has_changed = has_changed || side.changes_between(cell, top, *head);
            put(self.tops.as_mut_slice(), cell, *head);
        }
        has_changed
    }

    // The sum of all balances, where all heads are the same.
    fn sum_at(&mut self, side: &OneSide, head: i64) -> i128 {
        self.heads.as_mut_slice().fill(head);
        self.linearize(side);
        self.balances
            .iter()
            .fold(0_i128, |sum, balance| sum.saturating_add(*balance))
    }

    // Begins at heads that are all the same, at which the balances sum up to about 0, if balances are smaller there than at far heads. Ramps
    // have their effect there, as at far heads.
    fn begin_level(&mut self, side: &OneSide) -> Result<(), AllocError> {
        let far = self.longest_move();
        if far <= FAR {
            return Ok(());
        }
        self.slack = HEAD_LIMIT;
        let sum = self.sum_at(side, 0);
        let fall = sum.saturating_sub(self.sum_at(side, UNIT)) / UNIT as i128;
        let level = clamp_long(sum.checked_div(fall.max(1)).unwrap_or(0));
        self.sum_at(side, level.clamp(-HEAD_LIMIT, HEAD_LIMIT));
        if self.longest_move() >= far {
            self.slack = 0;
            self.heads = self.tops.clone()?;
            self.linearize(side);
        }
        Ok(())
    }

    // Whether no ramp bends as near to its cell's head as that may be off.
    fn is_straight(&self, side: &OneSide) -> bool {
        self.heads
            .iter()
            .enumerate()
            .all(|(cell, head)| !side.bends_within(cell, *head, self.slack))
    }

    // Whether balances are as small beside those before a round as a solved system leaves them: they are not where branches bend.
    fn is_solved_from(&self, alone: i64) -> bool {
        self.longest_move() < SHORT.max(alone >> BITS_SOLVED)
    }

    // The longest of the moves that would each cancel one balance alone.
    fn longest_move(&self) -> i64 {
        let mut longest = 0_i64;
        for (balance, slope) in self.balances.iter().zip(self.slopes.as_slice()) {
            let size = balance.saturating_abs();
            if size > product(longest, *slope) {
                longest = clamp_long(size.checked_div(*slope as i128).unwrap_or(0));
            }
        }
        longest
    }

    // Moves the heads by unknowns of 2^-places, none below its floor, and returns the longest move that was made.
    fn advance(&mut self, side: &OneSide, unknowns: &[i64], places: i64) -> i128 {
        let mut longest = 0_i128;
        let half = shift(1, places.saturating_sub(1));
        for cell in 0..self.heads.len() {
            let unknown = (at(unknowns, cell) as i128).wrapping_add(half);
            let way = shift(unknown, 0_i64.saturating_sub(places));
            let head = at(self.heads.as_slice(), cell);
            let moved = side.above_floor(cell, (head as i128).saturating_add(way));
            longest = longest.max(moved.abs_diff(head) as i128);
            put(self.heads.as_mut_slice(), cell, moved);
        }
        longest
    }

    // One round, where `alone` is the longest move by one balance alone. Returns the longest move, and whether it may be the last one if the
    // slopes stay as they were.
    fn step(
        &mut self,
        work: &mut Work,
        until: Until,
        alone: i64,
        linear: &mut Linear,
    ) -> (i128, bool) {
        let places = 20_i64.saturating_sub(width(alone as i128) as i64);
        let mut bits = linear.bits(places);
        if alone > FAR_FROM_LAST && !work.side.links.are_nearly_straight() {
            bits = linear.bits_of_bent(bits);
        }
        let unknowns = linear.solve(work, self.balances.as_slice(), places, bits);
        let longest = self.advance(work.side, unknowns, places);
        let is_solved = linear.is_solved(bits);
        let bits_of_slack = if is_solved { BITS_OF_SLACK } else { 0 };
        self.slack = clamp_long(longest.wrapping_shr(bits_of_slack));
        let may_end = match until {
            Until::Straight => longest < LONGEST_LAST && self.is_straight(work.side),
            _ => alone < SHORT && longest < LONG,
        };
        (longest, may_end && is_solved)
    }

    // Rounds until no head moves by more than a few units, or they or the budget end.
    fn solve(
        &mut self,
        work: &mut Work,
        until: Until,
        kept: &mut Option<Linear>,
    ) -> Result<(), AllocError> {
        for _ in 0..MOST_ROUNDS {
            let linear = Linear::of(work, self.slopes.as_slice(), kept)?;
            let alone = self.longest_move();
            if until != Until::Balanced && alone < SHORT {
                break;
            }
            let slack = self.slack;
            let (longest, is_last) = self.step(work, until, alone, linear);
            if work.budget.is_spent() {
                break;
            }
            self.linearize(work.side);
            let is_last = is_last && (until != Until::Straight || self.is_solved_from(alone));
            // A ramp whose foot is near counts by the slack before the move, and may not by the one after it.
            let is_still = longest <= STILL && slack <= STILL as i64;
            if is_still || is_last && linear.is_near(self.slopes.as_slice()) {
                if !self.set_tops(work.side) {
                    break;
                }
                self.linearize(work.side);
            }
        }
        Ok(())
    }
}

/// How far Newton's method goes: to heads from which one more round leads to the balanced ones; to heads about which all balances are straight, so
/// that a linear system takes what is left; or to balanced heads.
#[derive(Clone, Copy)]
pub enum Until {
    Near,
    Straight,
    Balanced,
}

/// Heads near those at which each balance is 0, by Newton's method from these heads, until no head moves by more than a few units, or its
/// rounds or the budget end. A linear system is kept from one call to the next.
pub fn find_balanced(
    work: &mut Work,
    until: Until,
    heads: Vec<i64>,
    kept: &mut Option<Linear>,
) -> Result<Vec<i64>, AllocError> {
    let mut newton = Newton::new(work.side, heads)?;
    let solved = newton.solve(work, until, kept);
    let heads = mem::replace(&mut newton.heads, Vec::new(work.side.alloc));
    drop(newton);
    filled_value(heads, solved)
}
