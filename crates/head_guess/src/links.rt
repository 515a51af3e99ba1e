// A problem's links, and what is known of each cell's.
use crate::branch::Branch;
use multigrid::numbers::label;
use std::alloc::{AllocError, Global};
use step_problem::{Cell, Link, Problem};

/// A cell's part of a list of all cells.
#[derive(Clone, Copy, Default)]
pub struct Part {
    first: u32,
    end: u32,
}

impl Part {
    pub fn of<'a, T>(&self, all: &'a [T]) -> &'a [T] {
        all.get(self.first as usize..self.end as usize)
            .unwrap_or(&[])
    }

    pub fn is_empty(&self) -> bool {
        self.first == self.end
    }

    // The next part of a list, of `count` items.
    fn next(&self, count: usize) -> Part {
        Part {
            first: self.end,
            end: self.end.saturating_add(label(count)),
        }
    }
}

// Sums of lower and upper conductances that differ by at most this are taken as one.
const MOST_BETWEEN: i64 = 12;

// What is kept of a cell: the places of its links, branches to known heads and ramps in lists of all cells, and how far its balance falls when
// its head rises by a unit: at least, and at most where it is straight.
#[derive(Clone, Copy, Default)]
struct Places {
    links: Part,
    knowns: Part,
    ramps: Part,
    least: i64,
    greatest: i64,
}

/// A cell's links, the places of its branches to known heads and of its ramps, and how far its balance falls when its head rises by a unit: at
/// least, and at most where it is straight.
#[derive(Clone, Copy)]
pub struct Row<'a> {
    pub links: &'a [Link],
    pub knowns: Part,
    pub ramps: Part,
    pub least: i64,
    pub greatest: i64,
}

/// The links of a problem: those of its cells, or a copy of them in one list, which is read in less time.
#[derive(Drop)]
pub struct Links<'a> {
    problem: &'a Problem,
    copied: Option<Vec<Link>>,
    places: Vec<Places>,
    // The number of all links, and of cells with one link of more than two fifths of the conductance of all its links.
    count: usize,
    uneven: u64,
}

impl Places {
    fn add_branch(&mut self, branch: Branch) {
        self.least = self.least.saturating_add(branch.lo);
        self.greatest = self.greatest.saturating_add(branch.hi);
    }
}

impl Row<'_> {
    /// Whether the balance is linear but for rounding: the cell has only links and known heads.
    pub fn is_straight(&self) -> bool {
        self.ramps.is_empty()
    }

    /// Whether the bounds of its conductances are so near each other that its slope is one number but for a few units.
    pub fn is_narrow(&self) -> bool {
        self.greatest.saturating_sub(self.least) <= MOST_BETWEEN
    }
}

// The number of a cell's rivers, drains and evaporations.
fn ramp_count(cell: &Cell) -> usize {
    cell.rivers
        .len()
        .saturating_add(cell.drains.len())
        .saturating_add(cell.evaps.len())
}

// The number of all cells' links.
fn link_count(p: &Problem) -> usize {
    let mut count = 0_usize;
    for cell in 0..p.len() {
        count = count.saturating_add(p.cell(cell).links.len());
    }
    count
}

impl Links<'_> {
    // Adds a cell, whose places follow those of the last one.
    fn add_cell(&mut self, cell: &Cell, last: &Places) -> Result<Places, AllocError> {
        let mut places = Places {
            links: last.links.next(cell.links.len()),
            knowns: last.knowns.next(cell.fixed.len()),
            ramps: last.ramps.next(ramp_count(cell)),
            least: 0,
            greatest: 0,
        };
        let mut strongest = 0_i64;
        for link in &cell.links {
            let branch = Branch::of(link);
            places.add_branch(branch);
            strongest = strongest.max(branch.hi);
        }
        if strongest / 2 > places.greatest / 5 {
            self.uneven = self.uneven.saturating_add(1);
        }
        for fixed in &cell.fixed {
            places.add_branch(Branch::new(fixed.lo, fixed.hi));
        }
        places.least = places.least.max(1);
        places.greatest = places.greatest.max(1);
        self.places.push(places)?;
        Ok(places)
    }

    /// The links of a problem where they are.
    pub fn of<'a>(alloc: Global, problem: &'a Problem) -> Result<Links<'a>, AllocError> {
        let mut links = Links {
            problem,
            copied: None,
            places: Vec::with_capacity(alloc, problem.len())?,
            count: link_count(problem),
            uneven: 0,
        };
        let mut last = Places::default();
        for cell in 0..problem.len() {
            last = links.add_cell(problem.cell(cell), &last)?;
        }
        Ok(links)
    }

    /// A copy of a problem's links in one list: raising heads reads them often.
    pub fn with_copies<'a>(alloc: Global, problem: &'a Problem) -> Result<Links<'a>, AllocError> {
        let mut copied = Vec::with_capacity(alloc, link_count(problem))?;
        for cell in 0..problem.len() {
            copied.extend_from_slice(problem.cell(cell).links.as_slice())?;
        }
        let mut links = Links::of(alloc, problem)?;
        links.copied = Some(copied);
        Ok(links)
    }

    /// The number of cells.
    pub fn len(&self) -> usize {
        self.places.len()
    }

    /// The number of all cells' links.
    pub fn count(&self) -> usize {
        self.count
    }

    /// The links of a cell on the average, in hundredths.
    pub fn links_per_cell(&self) -> u64 {
        let links = (self.count as u64).saturating_mul(100);
        links.checked_div(self.places.len() as u64).unwrap_or(0)
    }

    /// Whether the links of most cells are much alike, as they are not where a model is anisotropic.
    pub fn are_even(&self) -> bool {
        self.uneven <= self.places.len() as u64 / 2
    }

    pub fn are_copied(&self) -> bool {
        self.copied.is_some()
    }

    // The links of a cell, at these places of the copy.
    fn links_at(&self, cell: usize, places: &Places) -> &[Link] {
        match &self.copied {
            Some(copied) => places.links.of(copied.as_slice()),
            None if cell < self.problem.len() => self.problem.cell(cell).links.as_slice(),
            None => &[],
        }
    }

    /// The row of a cell; an empty one past the last cell.
    pub fn row(&self, cell: usize) -> Row<'_> {
        let places = self.places.get(cell).copied().unwrap_or_default();
        Row {
            links: self.links_at(cell, &places),
            knowns: places.knowns,
            ramps: places.ramps,
            least: places.least,
            greatest: places.greatest,
        }
    }

    /// The links of a cell.
    pub fn at(&self, cell: usize) -> &[Link] {
        self.row(cell).links
    }

    /// Whether all balances but a few are straight.
    pub fn are_nearly_straight(&self) -> bool {
        let bent = self
            .places
            .iter()
            .filter(|places| !places.ramps.is_empty())
            .count();
        bent <= self.places.len() / 16
    }
}
