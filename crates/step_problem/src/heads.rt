// Heads of a problem's cells, in units of 10^-9 length units, and what a settler returns.
ghost use Rattle.std.specs.Prelude.{◌≡◌};
ghost use Rattle.step_problem.specs.Balances.{bound_on};

use std::fmt;
use std::marker::Model;

/// The lower and the upper head of a cell.
#[derive(Clone, Copy, PartialEq, Eq)]
pub struct Bound {
    pub low: i64,
    pub high: i64,
}

/// The head of the two that a fact is about.
#[derive(Clone, Copy)]
pub enum Side {
    Low,
    High,
}

impl Side {
    /// The bound of a value from `lo` to `hi` on this side.
    pub fn bound_of<T: Drop>(self, lo: T, hi: T) -> T
        ensures { result ≡ bound_on self lo hi }
    {
        match self {
            Side::Low => lo,
            Side::High => hi,
        }
    }
}

impl fmt::Display for Side {
    ghost use Rattle.std.specs.Prelude.{Some};
    ghost use Rattle.step_problem.specs.StepRefusals.{side_name};

    ghost output = { λ s. Some (side_name s) };

    fn fmt<W: fmt::Write>(&self, f: &mut fmt::Formatter<W>) -> fmt::Result {
        f.write_str(match self {
            Side::Low => "LOW",
            Side::High => "HIGH",
        })
    }
}

/// A floor and a ceiling for each variable cell. The type does not say that every solution lies between them; the call that finds them does.
#[derive(Drop)]
pub struct Barrier {
    pub floor: Vec<i64>,
    pub ceiling: Vec<i64>,
}

impl Model for Barrier {
    ghost use Rattle.step_problem.specs.Heads.{Edges};

    ghost Value = { Edges };

    ghost view = { λ b. record {
      floor = b.floor.items;
      ceiling = b.ceiling.items;
    } };
}

/// A settling that gave up: a cell, by its index, that can still move on one side, and the heads reached.
#[derive(Drop)]
pub struct Open {
    pub cell: u32,
    pub side: Side,
    pub words: Vec<Bound>,
}

impl Model for Open {
    ghost use Rattle.step_problem.specs.Heads.{OpenHeads};

    ghost Value = { OpenHeads };

    ghost view = { λ o. record {
      cell = o.cell;
      side = o.side;
      words = o.words.items;
    } };
}

/// Why a problem was not settled.
#[derive(Drop)]
pub enum SettleFault {
    Unfinished(Open),
    Memory,
}
