// The data of a variable cell of a step's problem. Conductances are in units of 10^-s, heads in 10^-9 length units,
// flows in 10^-(s+9), where s is the number of digits; `lo` and `hi` are the bounds of one exact value.
use std::marker::Model;

/// Which kind of known head a branch leads to.
#[derive(Clone, Copy)]
pub enum FixedKind {
    Storage,
    Constant,
    General,
}

/// Which package a constant flow comes from.
#[derive(Clone, Copy)]
pub enum FlowKind {
    Wells,
    Recharge,
}

/// A branch to another variable cell, named by its index.
#[derive(Clone, Copy, PartialEq, Eq)]
pub struct Link {
    pub cell: u32,
    pub lo: u64,
    pub hi: u64,
}

/// A branch to a known head: the old head over storage, a constant head, a general head.
/// The source is the cell number of the constant neighbour, else the cell's own.
#[derive(Clone, Copy)]
pub struct Fixed {
    pub kind: FixedKind,
    pub source: u32,
    pub lo: u64,
    pub hi: u64,
    pub head_lo: i64,
    pub head_hi: i64,
}

/// A river: its conductance, stage and bottom.
#[derive(Clone, Copy)]
pub struct River {
    pub lo: u64,
    pub hi: u64,
    pub stage_lo: i64,
    pub stage_hi: i64,
    pub bottom_lo: i64,
    pub bottom_hi: i64,
}

/// A drain: its conductance and elevation.
#[derive(Clone, Copy)]
pub struct Drain {
    pub lo: u64,
    pub hi: u64,
    pub elev_lo: i64,
    pub elev_hi: i64,
}

/// An evaporation: the greatest rate over the extinction depth, as a conductance, the extinction elevation and the surface.
#[derive(Clone, Copy)]
pub struct Evap {
    pub lo: u64,
    pub hi: u64,
    pub ext_lo: i64,
    pub ext_hi: i64,
    pub surf_lo: i64,
    pub surf_hi: i64,
}

/// A constant flow into the cell.
#[derive(Clone, Copy)]
pub struct Flow {
    pub kind: FlowKind,
    pub lo: i128,
    pub hi: i128,
}

/// A variable cell: its cell number and its entries. Contracts see it as a record of lists.
#[derive(Drop)]
pub struct Cell {
    pub id: u32,
    pub flows: Vec<Flow>,
    pub links: Vec<Link>,
    pub fixed: Vec<Fixed>,
    pub rivers: Vec<River>,
    pub drains: Vec<Drain>,
    pub evaps: Vec<Evap>,
}

impl Model for Cell {
    ghost use Rattle.step_problem.specs.Entries.{Entries};

    ghost Value = { Entries };

    ghost view = { λ c. record {
      id = c.id;
      flows = c.flows.items;
      links = c.links.items;
      fixed = c.fixed.items;
      rivers = c.rivers.items;
      drains = c.drains.items;
      evaps = c.evaps.items;
    } };
}
