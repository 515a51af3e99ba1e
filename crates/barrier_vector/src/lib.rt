//! The barrier of a step's problem: a floor and a ceiling for each variable cell, between which every solution lies.
#![tactic(auto)]

ghost use Rattle.std.specs.Prelude.{ℕ, ◌<◌, length, IfOk, IfErr};
ghost use Rattle.step_problem.specs.{head_at, IsBarrier};
ghost use Rattle.cell_balance.specs.{IsHeldBelow, EnclosesSolutions};
ghost use Rattle.barrier_vector.specs.{IsCellFloor, IsCellCeiling, IsFault, IsCutBarrierOf, IsCutFault, EnclosesUncut, HasStorage, IsNotForLackOfAnchors};

mod bounds;
mod carried;
mod clamped;
mod flows;
mod gathered;
pub mod laws;
mod marks;
mod outline;
mod refusal;
mod roots;
mod search;
mod spread;

pub use clamped::clamp_barrier;
use outline::outline_sides;
pub use refusal::{is_out_of_range, out_of_range};
use refusal::{cut_side, whole_side};
use std::alloc::Global;
use step_problem::{Barrier, BoundFault, Problem, Side};

/// The floor and the ceiling of each variable cell, in units of 10^-9 length units. Time and memory grow as the number of cells and links.
/// A problem without a barrier is refused at the least cell with the first of four causes: 24 where a component is
/// neither anchored nor carried, 26 where a floor lies below all heads, 25 where a component has no anchor of the
/// high side, 27 where a ceiling lies above all heads.
pub fn barrier(alloc: Global, p: &Problem) -> Result<Barrier, BoundFault>
    ensures floors { IfOk result (λ b. (c : ℕ) → c < length p.now → IsCellFloor p.now c (head_at b.floor c)) }
    ensures ceilings { IfOk result (λ b. (c : ℕ) → c < length p.now → IsCellCeiling p.now c (head_at b.ceiling c)) }
    ensures refusal { IfErr result (λ e. IsFault p.now e) }
    ensures barrier { IfOk result (λ b. IsBarrier p.now b) }
    ensures held { IfOk result (λ b. IsHeldBelow p.now) }
    ensures encloses { IfOk result (λ b. EnclosesSolutions p.now (head_at b.floor) (head_at b.ceiling)) }
    ensures stored { HasStorage p.now → IfErr result (λ e. IsNotForLackOfAnchors e) }
{
    p.recall_conditions();
    let outlines = match outline_sides(alloc, p) {
        Ok(outlines) => outlines,
        Err(_) => return Err(BoundFault::Memory),
    };
    let floor = match whole_side(alloc, p, Side::Low, &outlines.low) {
        Ok(floor) => floor,
        Err(fault) => return Err(fault),
    };
    match whole_side(alloc, p, Side::High, &outlines.high) {
        Ok(ceiling) => Ok(Barrier { floor, ceiling }),
        Err(fault) => Err(fault),
    }
}

/// The same, where a floor below all heads is cut to a unit below the least head, and a ceiling above all heads to a unit
/// above the greatest one: refused are only 24 and 25. Every solution lies between the floors and ceilings that weren't
/// cut. A certificate over the others holds by its balances alone, since no head is at a bound that was cut.
pub fn cut_barrier(alloc: Global, p: &Problem) -> Result<Barrier, BoundFault>
    ensures barrier { IfOk result (λ b. IsCutBarrierOf p.now b) }
    ensures refusal { IfErr result (λ e. IsCutFault p.now e) }
    ensures held { IfOk result (λ b. IsHeldBelow p.now) }
    ensures encloses { IfOk result (λ b. EnclosesUncut p.now b) }
    ensures stored { HasStorage p.now → IfErr result (λ e. IsNotForLackOfAnchors e) }
{
    p.recall_conditions();
    let outlines = match outline_sides(alloc, p) {
        Ok(outlines) => outlines,
        Err(_) => return Err(BoundFault::Memory),
    };
    let floor = match cut_side(alloc, p, Side::Low, &outlines.low) {
        Ok(floor) => floor,
        Err(fault) => return Err(fault),
    };
    match cut_side(alloc, p, Side::High, &outlines.high) {
        Ok(ceiling) => Ok(Barrier { floor, ceiling }),
        Err(fault) => Err(fault),
    }
}
