// The branches of a cell to its neighbours.
ghost use Rattle.std.specs.Prelude.{◌≡◌, ◌<◌, IfOk, ◌++◌, map};
ghost use Rattle.model_types.specs.{IsInGrid, cell_count, through, is_variable, is_constant, variable_faces, constant_faces};
ghost use Rattle.problem_builder.specs.{link_over, constant_over, IsVariableCell, AreInputs, branches_of, pair_at};
ghost use Rattle.std.specs.Option.{option_map, option_to_list};

use crate::input::StepInput;
use conductance_bounds::{FlowPair, Pair};
use model_types::{Axis, Face};
use std::alloc::{AllocError, Global};
use step_problem::{Bound, Fixed, FixedKind, Flow, FlowKind, Link};

// The bounds of a face's conductance.
fn face_pair(input: &StepInput, face: Face) -> Pair
    requires input { AreInputs input.now }
    requires first { face.first < cell_count input.now.model.grid }
    ensures { result ≡ pair_at input.now.pairs face.axis face.first }
{
    let place = face.first as usize;
    match face.axis {
        Axis::Row => input.pairs.row.as_slice()[place],
        Axis::Column => input.pairs.column.as_slice()[place],
        Axis::Vertical => input.pairs.vertical.as_slice()[place],
    }
}

// The branch through a face whose other end is a variable cell.
fn link_through(input: &StepInput, face: Option<Face>) -> Option<Link>
    requires input { AreInputs input.now }
    requires face { IsInGrid input.now.model.grid face }
    ensures { result ≡ option_map (link_over input.now.model input.now.tables.digits input.now.at input.now.old (branches_of input.now))
        (through (is_variable input.now.model input.now.at.period) face) }
{
    match face {
        Some(face) if input.is_variable(face.end) => {
            let pair = face_pair(input, face);
            Some(Link {
                cell: input.index(face.end),
                lo: pair.lo,
                hi: pair.hi,
            })
        }
        _ => None,
    }
}

/// The branches to variable neighbours.
pub fn links(alloc: Global, input: &StepInput, cell: u32) -> Result<Vec<Link>, AllocError>
    requires input { AreInputs input.now }
    requires cell { IsVariableCell input.now cell }
    ensures { IfOk result (λ v. v.items ≡ map (link_over input.now.model input.now.tables.digits input.now.at input.now.old (branches_of input.now))
        (variable_faces input.now.model input.now.at.period cell)) }
{
    let faces = input.model.grid.faces(cell);
    let count = faces.iter().filter(|face| face.is_some()).count();
    let mut links = Vec::with_capacity(alloc, count)?;
    for face in &faces {
        push_some(&mut links, link_through(input, *face))?;
    }
    Ok(links)
}

// The branch through a face whose other end has a constant head.
fn constant_through(input: &StepInput, face: Option<Face>) -> Option<Fixed>
    requires input { AreInputs input.now }
    requires face { IsInGrid input.now.model.grid face }
    ensures { result ≡ option_map (constant_over input.now.model input.now.tables.digits input.now.at input.now.old (branches_of input.now))
        (through (is_constant input.now.model input.now.at.period) face) }
{
    match face {
        Some(face) if input.is_constant(face.end) => {
            let pair = face_pair(input, face);
            let head = input.given_head(face.end);
            Some(known_head(FixedKind::Constant, face.end, pair, head))
        }
        _ => None,
    }
}

/// The branches to neighbours with constant heads.
pub fn constants(alloc: Global, input: &StepInput, cell: u32) -> Result<Vec<Fixed>, AllocError>
    requires input { AreInputs input.now }
    requires cell { IsVariableCell input.now cell }
    ensures { IfOk result (λ v. v.items ≡ map (constant_over input.now.model input.now.tables.digits input.now.at input.now.old (branches_of input.now))
        (constant_faces input.now.model input.now.at.period cell)) }
{
    let faces = input.model.grid.faces(cell);
    let mut fixed = Vec::new(alloc);
    for face in &faces {
        push_some(&mut fixed, constant_through(input, *face))?;
    }
    Ok(fixed)
}

// Entries from their bounds.

/// A branch to a known head.
pub fn known_head(kind: FixedKind, source: u32, pair: Pair, head: Bound) -> Fixed
    ensures { result ≡ record { kind = kind; source = source; lo = pair.lo; hi = pair.hi; head_lo = head.low; head_hi = head.high } }
{
    Fixed {
        kind,
        source,
        lo: pair.lo,
        hi: pair.hi,
        head_lo: head.low,
        head_hi: head.high,
    }
}

/// A flow that no head changes.
pub fn constant_flow(kind: FlowKind, pair: FlowPair) -> Flow
    ensures { result ≡ record { kind = kind; lo = pair.lo; hi = pair.hi } }
{
    Flow {
        kind,
        lo: pair.lo,
        hi: pair.hi,
    }
}

// Appending optional items.

/// Appends an item, if there is one. Most lists get one item, so the first one has no room for more beside it.
pub fn push_some<T: Copy>(items: &mut Vec<T>, item: Option<T>) -> Result<(), AllocError>
    ensures { IfOk result (λ _. items.new.items ≡ items.old.items ++ option_to_list item) }
{
    if let Some(item) = item {
        if items.is_empty() {
            items.reserve_exact(1)?;
        }
        items.push(item)?;
    }
    Ok(())
}
