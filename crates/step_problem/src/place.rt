// Why a step has no bounds, and where.
ghost use Rattle.std.specs.Prelude.{Some};
ghost use Rattle.step_problem.specs.StepRefusals.{dir_name, term_name};

use crate::heads::Side;
use std::fmt;

/// A flow into the variable cells is In.
#[derive(Clone, Copy)]
pub enum Dir {
    In,
    Out,
}

impl fmt::Display for Dir {
    ghost output = { λ d. Some (dir_name d) };

    fn fmt<W: fmt::Write>(&self, f: &mut fmt::Formatter<W>) -> fmt::Result {
        f.write_str(match self {
            Dir::In => "IN",
            Dir::Out => "OUT",
        })
    }
}

/// The terms of the volumetric budget, in the order of the listing.
#[derive(Clone, Copy)]
pub enum Term {
    Storage,
    ConstantHead,
    Wells,
    Drains,
    RiverLeakage,
    HeadDepBounds,
    Recharge,
    Et,
}

impl fmt::Display for Term {
    ghost output = { λ t. Some (term_name t) };

    fn fmt<W: fmt::Write>(&self, f: &mut fmt::Formatter<W>) -> fmt::Result {
        f.write_str(match self {
            Term::Storage => "STORAGE",
            Term::ConstantHead => "CONSTANT HEAD",
            Term::Wells => "WELLS",
            Term::Drains => "DRAINS",
            Term::RiverLeakage => "RIVER LEAKAGE",
            Term::HeadDepBounds => "HEAD DEP BOUNDS",
            Term::Recharge => "RECHARGE",
            Term::Et => "ET",
        })
    }
}

/// Where a step fails: at a cell, by its cell number, and a side; at a budget term; or at a pair of zones.
#[derive(Clone, Copy)]
pub enum Place {
    Cell(u32, Side),
    Term(Dir, Term),
    Zone(u32, u32),
}

/// The flow over the faces between two zones, from the zone of the lesser number to the other one: the bounds of its
/// exact value, in units of 10^-(s+9) of the model's flow, where s is the number of digits.
#[derive(Clone, Copy)]
pub struct ZoneFlow {
    pub from: u32,
    pub to: u32,
    pub lo: i128,
    pub hi: i128,
}

/// A step without bounds: the refusal's number, from 21 to 27, and its place.
#[derive(Clone, Copy)]
pub struct NoBound {
    pub code: u8,
    pub place: Place,
}
