// The linear system of a round of Newton's method, with a method to solve it: conjugate gradients or elimination. It is kept while its slopes
// hardly change, from one side to the other too.
use crate::links::Links;
use crate::share::Room;
use crate::system::{matrix_of, scale_of, slack_of, visits_of_factor, visits_of_solution};
use crate::work::Work;
use multigrid::Levels;
use multigrid::numbers::{shift, width};
use star_mesh::{Factor, Pattern};
use std::alloc::AllocError;
use std::mem;

// Making the levels takes about this many visits at each cell.
const VISITS_OF_LEVELS: u64 = 20;

// Rounds of conjugate gradients, those for the room, and those where no elimination would follow: then a room to a few parts in a hundred will do.
const ROUNDS_OF_SOLUTION: u32 = 30;

const ROUNDS_OF_ROOM: u32 = 60;

const FEW_ROUNDS_OF_ROOM: u32 = 9;

// The bits to which residuals are solved, at least and at most.
const LEAST_BITS: u32 = 4;

const MOST_BITS: u32 = 18;

// Those where the slopes change after the round.
const BITS_OF_BENT: u32 = 13;

// The room is found to 2^-10 of itself.
const BITS_OF_ROOM: u32 = 10;

// Elimination always pays with at most this number of operations for each cell, as in a layer of 256 x 256, where slopes stay as they are.
const FEW_OPERATIONS: u64 = 1_500;

/// With at most this number of cells it pays where slopes change from round to round, too.
pub const FEW_CELLS: usize = 4_096;

/// A system with what its method needs: conjugate gradients with multigrid cycles, or elimination.
enum Method {
    Cycles(Levels),
    Elimination(Factor),
}

impl Drop for Method {
    fn drop(self) {
        match self {
            Method::Cycles(levels) => drop(levels),
            Method::Elimination(factor) => drop(factor),
        }
    }
}

impl Method {
    // The right side of the system. `solve` leaves the residual there.
    fn right_side(&mut self) -> &mut [i128] {
        match self {
            Method::Cycles(levels) => levels.right_side(),
            Method::Elimination(factor) => factor.right_side(),
        }
    }

    fn is_by_cycles(&self) -> bool {
        match self {
            Method::Cycles(_) => true,
            Method::Elimination(_) => false,
        }
    }
}

/// The system of slopes, with its method, its room once that is found, and how its solutions by cycles went. A cell whose slope is 0 is fixed:
/// its unknown is 0.
#[derive(Drop)]
pub struct Linear {
    method: Method,
    pub slopes: Vec<i64>,
    // How far each slope may be off.
    slack: Vec<u64>,
    // Weights are conductances over 2^scale, so that the sum of all of them fits.
    scale: u32,
    room: Option<Room>,
    // The visits that cycles took for its solutions.
    visits: u64,
    /// Whether cycles have left it, or one before it, unsolved.
    pub is_hard: bool,
}

// Whether a factor takes few operations, and is of use in more than one round of Newton's method or has few cells.
fn is_cheap(pattern: &Pattern, links: &Links) -> bool {
    pattern.operations <= FEW_OPERATIONS.saturating_mul(pattern.len() as u64)
        && (pattern.len() <= FEW_CELLS || links.are_nearly_straight())
}

// Whether elimination pays: it is cheap, or cycles have taken as many visits as a factor does, or have left a system unsolved.
fn pays(pattern: &Pattern, links: &Links, visits: u64, is_hard: bool) -> bool {
    is_hard || visits >= visits_of_factor(pattern) || is_cheap(pattern, links)
}

// The factor of a system, if the system fits the pattern.
fn factor_of(
    work: &mut Work,
    slopes: &[i64],
    pattern: Option<&Pattern>,
) -> Result<Option<Factor>, AllocError> {
    let Some(pattern) = pattern else {
        return Ok(None);
    };
    let matrix = matrix_of(work.side, slopes, 0)?;
    if !pattern.fits(&matrix) {
        return Ok(None);
    }
    work.budget.spend(visits_of_factor(pattern));
    Ok(Some(Factor::new(work.side.alloc, pattern, matrix)?))
}

impl Linear {
    /// A system that is solved by elimination, if it fits the pattern; else by multigrid cycles.
    pub fn new(
        work: &mut Work,
        slopes: Vec<i64>,
        pattern: Option<&Pattern>,
        is_hard: bool,
    ) -> Result<Linear, AllocError> {
        let side = work.side;
        let slack = slack_of(side, slopes.as_slice())?;
        let mut scale = 0;
        let method = match factor_of(work, slopes.as_slice(), pattern)? {
            Some(factor) => Method::Elimination(factor),
            None => {
                scale = scale_of(slopes.as_slice());
                let matrix = matrix_of(side, slopes.as_slice(), scale)?;
                let visits = VISITS_OF_LEVELS.saturating_mul(side.len() as u64);
                work.budget.spend(visits);
                Method::Cycles(Levels::new(side.alloc, matrix)?)
            }
        };
        Ok(Linear {
            method,
            slopes,
            slack,
            scale,
            room: None,
            visits: 0,
            is_hard,
        })
    }

    /// The system of these slopes: the kept one, if its slopes are near these, and elimination of it would not have paid. It is kept.
    pub fn of<'k>(
        work: &mut Work,
        slopes: &[i64],
        kept: &'k mut Option<Linear>,
    ) -> Result<&'k mut Linear, AllocError> {
        let last = kept.take();
        let (visits, is_hard) = match &last {
            Some(last) => (last.visits, last.is_hard),
            None => (0, false),
        };
        let pattern = match work.side.pattern {
            Some(pattern) if pays(pattern, work.side.links, visits, is_hard) => Some(pattern),
            _ => None,
        };
        if let Some(last) = last {
            let is_dear = pattern.is_some() && last.method.is_by_cycles();
            if !is_dear && last.is_near(slopes) {
                return Ok(kept.insert(last));
            }
            drop(last);
        }
        let slopes = Vec::from_slice(work.side.alloc, slopes)?;
        Ok(kept.insert(Linear::new(work, slopes, pattern, is_hard)?))
    }

    /// Whether these slopes are nearly its own: within the few units by which lower and upper conductances differ, or a
    /// small part of what they exceed the cell's links by. Heads move together as far as that part lets them, however great the links are.
    pub fn is_near(&self, slopes: &[i64]) -> bool {
        let pairs = self.slopes.iter().zip(slopes);
        self.slopes.len() == slopes.len()
            && pairs
                .zip(self.slack.as_slice())
                .all(|((own, slope), slack)| own.abs_diff(*slope) <= *slack)
    }

    // The unknowns of the right side, times its power of two.
    fn unknowns(&mut self, work: &mut Work, rounds: u32, bits: u32) -> &[i64] {
        match (&mut self.method, work.side.pattern) {
            (Method::Cycles(levels), _) => {
                let left = work.budget.left;
                let unknowns = levels.solve(rounds, bits, &mut work.budget);
                let visits = left.saturating_sub(work.budget.left);
                self.visits = self.visits.saturating_add(visits);
                unknowns
            }
            (Method::Elimination(factor), Some(pattern)) => {
                work.budget.spend(visits_of_solution(pattern));
                factor.solve(pattern, bits)
            }
            (Method::Elimination(_), None) => &[],
        }
    }

    /// Solves for numbers of the problem's unit, and returns the unknowns in units of 2^-places: with residuals below 2^bits of these units of
    /// each slope, or after some rounds of conjugate gradients.
    pub fn solve(&mut self, work: &mut Work, numbers: &[i128], places: i64, bits: u32) -> &[i64] {
        let scale = self.scale;
        for (right, number) in self.method.right_side().iter_mut().zip(numbers) {
            *right = shift(*number, places).wrapping_shr(scale);
        }
        self.unknowns(work, ROUNDS_OF_SOLUTION, bits)
    }

    /// How small a residual has to be, in bits, for unknowns of 2^-places in a round of Newton's method after which the slopes change: a factor
    /// leaves nothing anyway.
    pub fn bits_of_bent(&self, bits: u32) -> u32 {
        if self.method.is_by_cycles() {
            bits.max(BITS_OF_BENT)
        } else {
            bits
        }
    }

    /// How small a residual has to be, in bits, for unknowns of 2^-places: where the room is known, so small that what is left moves no head by half a unit.
    pub fn bits(&self, places: i64) -> u32 {
        let Some(room) = &self.room else {
            return LEAST_BITS;
        };
        let units = width(room.greatest() as i128) as i64;
        let bits = places.saturating_sub(units).saturating_sub(1);
        u32::try_from(bits)
            .unwrap_or(0)
            .clamp(LEAST_BITS, MOST_BITS)
    }

    /// Whether the last solution leaves no more than 2^bits of each slope, or twice that. If not, the system is known to be hard.
    pub fn is_solved(&mut self, bits: u32) -> bool {
        let scale = self.scale;
        let bits = bits.saturating_add(1);
        let rests = self.method.right_side().iter();
        let is_solved = rests.zip(self.slopes.as_slice()).all(|(rest, slope)| {
            let slope = (slope.wrapping_shr(scale) as i128).max(1);
            rest.unsigned_abs() <= slope.wrapping_shl(bits).unsigned_abs()
        });
        self.is_hard = self.is_hard || !is_solved;
        is_solved
    }

    // The room, by a solution. Its visits say nothing of those for other solutions.
    fn solved_room(&mut self, work: &mut Work, rounds: u32) -> Result<Room, AllocError> {
        let (scale, visits) = (self.scale, self.visits);
        let rights = self.method.right_side().iter_mut();
        for (right, slope) in rights.zip(self.slopes.as_slice()) {
            *right = shift(*slope as i128, 20).wrapping_shr(scale);
        }
        let unknowns = self.unknowns(work, rounds, BITS_OF_ROOM).iter();
        let room = unknowns
            .map(|unknown| (*unknown >> 10).max(0))
            .collect(work.side.alloc)?;
        self.visits = visits;
        Ok(Room(room))
    }

    // The room, by elimination where cycles do not solve it.
    fn found_room(&mut self, work: &mut Work) -> Result<Room, AllocError> {
        let pattern = work.side.pattern;
        if pattern.is_none() {
            return self.solved_room(work, FEW_ROUNDS_OF_ROOM);
        }
        let room = self.solved_room(work, ROUNDS_OF_ROOM)?;
        if !self.method.is_by_cycles() || self.is_solved(BITS_OF_ROOM) {
            return Ok(room);
        }
        drop(room);
        let linear = Linear::new(work, self.slopes.clone()?, pattern, true)?;
        drop(mem::replace(self, linear));
        self.solved_room(work, ROUNDS_OF_ROOM)
    }

    /// The room of the system, which is kept.
    pub fn room(&mut self, work: &mut Work) -> Result<&Room, AllocError> {
        let room = match self.room.take() {
            Some(room) => room,
            None => self.found_room(work)?,
        };
        Ok(self.room.insert(room))
    }

    /// Takes the room of another system, if its slopes are near.
    pub fn take_room(&mut self, other: &Linear) -> Result<(), AllocError> {
        if let (None, Some(room)) = (&self.room, &other.room) {
            if other.is_near(self.slopes.as_slice()) {
                self.room = Some(room.try_clone()?);
            }
        }
        Ok(())
    }
}
