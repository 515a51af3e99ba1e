// The time steps of a model, in order.
ghost use Rattle.std.specs.Prelude.{◌≡◌, ◌≤◌, ◌++◌, length, sum_by, map, IfOk, OnOk};
ghost use Rattle.std.specs.List.{range_with_len};
ghost use Rattle.model_types.specs.{times};

use crate::model::FlowModel;
use std::alloc::{AllocError, Global};

/// A time step by the numbers of its stress period and of the step in it, each from 1.
#[derive(Clone, Copy)]
pub struct TimeStep {
    pub period: u32,
    pub step: u32,
}

/// All time steps of a model, in order.
#[tactic(auto, using(crate::proofs::StepLists::steps_more, crate::proofs::StepLists::whole_count))]
pub fn times(alloc: Global, model: &FlowModel) -> Result<Vec<TimeStep>, AllocError>
    requires few { length model.now.periods ≤ 1000 }
    ensures times { IfOk result (λ steps. steps.items ≡ times model.now) }
    ensures count { IfOk result (λ steps. length steps.items ≡ sum_by (λ p. p.nstp) model.now.periods) }
{
    let periods = model.periods.as_slice();
    let mut steps = Vec::new(alloc);
    for p in 0..periods.len() {
        push_steps(&mut steps, p as u32 + 1, periods[p].nstp)?;
    }
    Ok(steps)
}

fn push_steps(steps: &mut Vec<TimeStep>, period: u32, nstp: u32) -> Result<(), AllocError>
    ensures { OnOk result (steps.new.items ≡ steps.old.items ++ map (λ n. record { period = period; step = n }) (range_with_len 1 nstp)) }
{
    for n in 0..nstp {
        steps.push(TimeStep {
            period,
            step: n + 1,
        })?;
    }
    Ok(())
}
