// The entries of a cell by their bounds, kind by kind.
ghost use Rattle.std.specs.Prelude.{◌≡◌, ◌≤◌, ◌∷◌, ◌++◌, [], List, IfOk};
ghost use Rattle.model_types.specs.declared.entry.Entry.{Entry as DeclaredEntry};
ghost use Rattle.model_types.specs.{IsEntryValid, as_river, as_drain, most_cells};
ghost use Rattle.std.specs.Option.{option_map};
ghost use Rattle.problem_builder.specs.Cells.{whole_river, whole_drain};
ghost use Rattle.problem_builder.specs.LocalBounds.{AreLocalBounds, well_of, general_of, no_bounds};
ghost use Rattle.model_types.specs.declared.limits.Limits.TheVariants.{Wide};

use crate::branches::{constant_flow, known_head, push_some};
use crate::start::{cond_pair, head_pair, well_pair};
use model_types::Entry;
use std::alloc::{AllocError, Global};
use std::marker::Model;
use step_problem::{Drain, Fixed, FixedKind, Flow, FlowKind, River};

/// The bounds of a cell's entries of WEL, RIV, DRN and GHB, by kind, in the order of the lists.
#[derive(Drop)]
pub struct CellEntries<'a> {
    pub wells: &'a [Flow],
    pub rivers: &'a [River],
    pub drains: &'a [Drain],
    pub generals: &'a [Fixed],
}

impl<'a> Model for CellEntries<'a> {
    ghost use Rattle.problem_builder.specs.LocalBounds.{LocalBounds};

    ghost Value = { LocalBounds };

    ghost view = { λ x. record {
      wells = x.wells.now;
      rivers = x.rivers.now;
      drains = x.drains.now;
      generals = x.generals.now;
    } };
}

/// The lists of the bounds of a cell's entries.
#[derive(Drop)]
pub struct LocalEntries {
    pub wells: Vec<Flow>,
    pub rivers: Vec<River>,
    pub drains: Vec<Drain>,
    pub generals: Vec<Fixed>,
}

impl Model for LocalEntries {
    ghost use Rattle.problem_builder.specs.LocalBounds.{LocalBounds};

    ghost Value = { LocalBounds };

    ghost view = { λ x. record {
      wells = x.wells.items;
      rivers = x.rivers.items;
      drains = x.drains.items;
      generals = x.generals.items;
    } };
}

impl LocalEntries {
    /// No entries.
    pub fn none(alloc: Global) -> LocalEntries
        ensures { result ≡ no_bounds }
    {
        LocalEntries {
            wells: Vec::new(alloc),
            rivers: Vec::new(alloc),
            drains: Vec::new(alloc),
            generals: Vec::new(alloc),
        }
    }

    /// Appends the bounds of an entry of the cell, with s digits of conductances.
    pub fn add(&mut self, entry: &Entry, cell: u32, s: u32) -> Result<(), AllocError>
        requires entry { IsEntryValid (most_cells Wide) entry.now }
        requires places { s ≤ 18 }
        ensures { IfOk result
            (λ _. (entries : List DeclaredEntry) → AreLocalBounds s cell self.old entries →
            AreLocalBounds s cell self.new (entries ++ entry.now ∷ [])) }
    {
        push_some(&mut self.wells, well(entry, s))?;
        push_some(&mut self.rivers, river(entry, s))?;
        push_some(&mut self.drains, drain(entry, s))?;
        push_some(&mut self.generals, general(entry, cell, s))?;
        Ok(())
    }
}

fn river(entry: &Entry, s: u32) -> Option<River>
    requires entry { IsEntryValid (most_cells Wide) entry.now }
    ensures { result ≡ option_map (whole_river s) (as_river entry.now) }
{
    match entry {
        Entry::River {
            stage,
            cond,
            bottom,
            ..
        } => {
            let pair = cond_pair(*cond, s);
            let stage = head_pair(*stage);
            let bottom = head_pair(*bottom);
            Some(River {
                lo: pair.lo,
                hi: pair.hi,
                stage_lo: stage.low,
                stage_hi: stage.high,
                bottom_lo: bottom.low,
                bottom_hi: bottom.high,
            })
        }
        _ => None,
    }
}

fn drain(entry: &Entry, s: u32) -> Option<Drain>
    requires entry { IsEntryValid (most_cells Wide) entry.now }
    ensures { result ≡ option_map (whole_drain s) (as_drain entry.now) }
{
    match entry {
        Entry::Drain {
            elevation,
            cond,
            ..
        } => {
            let pair = cond_pair(*cond, s);
            let elevation = head_pair(*elevation);
            Some(Drain {
                lo: pair.lo,
                hi: pair.hi,
                elev_lo: elevation.low,
                elev_hi: elevation.high,
            })
        }
        _ => None,
    }
}

fn general(entry: &Entry, cell: u32, s: u32) -> Option<Fixed>
    requires entry { IsEntryValid (most_cells Wide) entry.now }
    ensures { result ≡ general_of s cell entry.now }
{
    match entry {
        Entry::General { head, cond, .. } => {
            let pair = cond_pair(*cond, s);
            Some(known_head(FixedKind::General, cell, pair, head_pair(*head)))
        }
        _ => None,
    }
}

fn well(entry: &Entry, s: u32) -> Option<Flow>
    requires entry { IsEntryValid (most_cells Wide) entry.now }
    requires places { s ≤ 18 }
    ensures { result ≡ well_of s entry.now }
{
    match entry {
        Entry::Well { q, .. } => Some(constant_flow(FlowKind::Wells, well_pair(*q, s))),
        _ => None,
    }
}
