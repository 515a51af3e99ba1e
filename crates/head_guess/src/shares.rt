// Settled heads by a share of the room for each cell. In a round all cells are tried at once: a share falls where its cell is too low, and rises elsewhere.
use crate::changes::Changes;
use crate::linear::Linear;
use crate::raise::{raise_counted, raise_within};
use crate::share::Share;
use crate::system::visits_of_solution;
use crate::work::Work;
use multigrid::numbers::{at, filled_value};
use star_mesh::Pattern;
use std::alloc::AllocError;
use std::mem;

// The bits of a solution below a unit, and those to which its residuals are solved.
const PLACES_OF_SHARES: u32 = 10;

const BITS_OF_SHARES: u32 = 12;

// A cell that rises as often in a round is too low: in a round of the first cycle, of the second one, whose steps are shorter, and where shares only fall.
const RISES: u32 = 4;

const MORE_RISES: u32 = 6;

const RISES_OF_FALLS: u32 = 8;

// The rounds of a cycle, and at most those after it in which shares only fall: few where another cycle is left.
const ROUNDS_OF_CYCLE: u32 = 60;

const FEW_FALLS: u32 = 20;

const MOST_FALLS: u32 = 200;

// The steps of the second cycle are shorter by as many bits than those of the first one.
const BITS_OF_CYCLE: u32 = 5;

// The visits that a round takes at each cell beside its solution.
const VISITS_OF_ROUND: u64 = 11;

// The turns at each cell in which heads settle where no cell is too low.
const TURNS_TO_SETTLE: u64 = 20;

/// The visits that a cycle takes.
pub fn visits_of_cycle(pattern: &Pattern) -> u64 {
    let cells = (pattern.len() as u64).saturating_mul(VISITS_OF_ROUND);
    let visits = cells.saturating_add(visits_of_solution(pattern));
    visits.saturating_mul(ROUNDS_OF_CYCLE as u64)
}

// Heads that are lowered by a share of the room for each cell, and how these shares change.
#[derive(Drop)]
struct Shares {
    linear: Linear,
    changes: Changes,
    heads: Vec<i64>,
}

impl Shares {
    // Balanced heads lowered by the same share for all cells. A cell at its floor is held.
    fn new(work: &mut Work, balanced: &[i64], share: Share) -> Result<Shares, AllocError> {
        let side = work.side;
        let mut slopes = side.slopes(balanced)?;
        for (cell, slope) in slopes.iter_mut().enumerate() {
            if side.is_at_floor(cell, at(balanced, cell).saturating_sub(1)) {
                *slope = 0;
            }
        }
        let mut memory = Ok(());
        let shares = Shares {
            linear: Linear::new(work, slopes, side.pattern, false)?,
            changes: Changes::new(&mut memory, side.alloc, balanced.len(), share),
            heads: Vec::new(side.alloc),
        };
        let mut shares = filled_value(shares, memory)?;
        let begun = shares.begin(work, balanced);
        filled_value(shares, begun)
    }

    fn begin(&mut self, work: &mut Work, balanced: &[i64]) -> Result<(), AllocError> {
        self.heads.extend_from_slice(balanced)?;
        self.lower(work)
    }

    // Lowers the heads as the shares change.
    fn lower(&mut self, work: &mut Work) -> Result<(), AllocError> {
        let side = work.side;
        let flows = self
            .changes
            .flows(side.alloc, self.linear.slopes.as_slice())?;
        let places = PLACES_OF_SHARES as i64 - Changes::PLACES;
        let unknowns = self
            .linear
            .solve(work, flows.as_slice(), places, BITS_OF_SHARES);
        let way = |cell| {
            let unknown = at(unknowns, cell) as i128;
            unknown
                .wrapping_add(1 << (PLACES_OF_SHARES - 1))
                .wrapping_shr(PLACES_OF_SHARES)
        };
        self.heads = side.heads_below(self.heads.as_slice(), way)?;
        Ok(())
    }

    // A cycle: rounds in which shares fall and rise, in steps that are at most as long. Those cells are too low that rise as often.
    fn turn_all(&mut self, work: &mut Work, longest: i64, rises: u32) -> Result<(), AllocError> {
        self.changes.begin(longest);
        for _ in 1..ROUNDS_OF_CYCLE {
            let are_low = raise_counted(work, &mut self.heads, rises)?;
            self.changes.turn(are_low.as_slice());
            self.lower(work)?;
        }
        raise_counted(work, &mut self.heads, rises)?;
        Ok(())
    }

    // Rounds in which shares only fall, until the heads settle. Returns whether they do.
    fn settle(&mut self, work: &mut Work, most_falls: u32) -> Result<bool, AllocError> {
        let turns = TURNS_TO_SETTLE.saturating_mul(work.side.len() as u64);
        self.changes.begin_falls();
        for _ in 0..most_falls {
            let are_low = raise_counted(work, &mut self.heads, RISES_OF_FALLS)?;
            self.changes.fall(are_low.as_slice());
            let falls = are_low.contains(&true);
            if !falls && raise_within(work, &mut self.heads, None, turns)?.is_settled {
                return Ok(true);
            }
            if work.budget.is_spent() {
                break;
            }
            self.lower(work)?;
        }
        Ok(false)
    }
    // Cycles and falls. Returns whether the heads settle.
    fn settle_by_cycles(&mut self, work: &mut Work) -> Result<bool, AllocError> {
        self.turn_all(work, Changes::LONGEST, RISES)?;
        if self.settle(work, FEW_FALLS)? {
            return Ok(true);
        }
        if work.budget.is_spent() {
            return Ok(false);
        }
        self.turn_all(work, Changes::LONGEST >> BITS_OF_CYCLE, MORE_RISES)?;
        self.settle(work, MOST_FALLS)
    }
}

/// Settled heads below balanced ones, by a share for each cell, which is at first the same for all. None where they do not settle.
pub fn settled_by_shares(
    work: &mut Work,
    balanced: &[i64],
    share: Share,
) -> Result<Option<Vec<i64>>, AllocError> {
    let mut shares = Shares::new(work, balanced, share)?;
    let is_settled = shares.settle_by_cycles(work);
    let heads = mem::replace(&mut shares.heads, Vec::new(work.side.alloc));
    drop(shares);
    if is_settled? {
        return Ok(Some(heads));
    }
    Ok(None)
}
