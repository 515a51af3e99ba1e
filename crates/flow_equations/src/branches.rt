// Conductances by the textbook.
ghost use Rattle.std.specs.Prelude.{ℕ};
ghost use Rattle.model_types.specs.declared.model.FlowModel.{FlowModel};
ghost use Rattle.flow_equations.specs.{IsSameFromBothEnds, MeetsDarcy, MeetsDarcyAlongColumns, HasUnitBranches, IsHarmonic, FlowsChangeSign};
ghost use Rattle.flow_equations.specs.{MeetsDarcyDownwards, HasVerticalConductivity, LayersFillTheSpace};

/// A branch is the same from both ends. Between two cells of a row that are alike the conductance is
/// HK * THICK * DELC / DELR; between square cells of unit conductivity and thickness it is 1; between two cells of a column
/// that are alike it is HK * HANI * THICK * DELR / DELC; between two cells one above the other, of one material with the bed
/// between them, it is VK * DELR * DELC over the distance between their centres.
pub fn darcy()
    ensures ends { (m : FlowModel) → IsSameFromBothEnds m }
    ensures rows { (m : FlowModel) → MeetsDarcy m }
    ensures unit { (m : FlowModel) → HasUnitBranches m }
    ensures columns { (m : FlowModel) → MeetsDarcyAlongColumns m }
    ensures downwards { (m : FlowModel) → MeetsDarcyDownwards m }
{}

/// The harmonic mean lies between the conductances of the two halves.
pub fn harmonic_mean()
    ensures { IsHarmonic }
{}

/// A cell, the bed below it and the cell of the next layer fill the space between them.
#[tactic(auto, using(crate::proofs::Elevations::layers_fill))]
pub fn layers_fill_the_space()
    ensures { (m : FlowModel) → LayersFillTheSpace m }
{}

/// VKA is the vertical conductivity, or the ratio of HK to it.
#[tactic(auto, using(crate::proofs::Downwards::vertical_conductivity_of))]
pub fn vertical_conductivities()
    ensures { (m : FlowModel) (c : ℕ) → HasVerticalConductivity m c }
{}

/// Flows over branches change their sign with the heads.
#[tactic(auto, using(crate::proofs::TurnedFlows::flows_change_sign))]
pub fn flows_change_sign()
    ensures { FlowsChangeSign }
{}
