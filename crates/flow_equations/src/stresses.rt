// Recharge, evapotranspiration and given heads by the manual.
ghost use Rattle.std.specs.Prelude.{ℕ, ℤ, List};
ghost use Rattle.decimal_input.specs.{Fraction};
ghost use Rattle.model_types.specs.declared.model.FlowModel.{FlowModel};
ghost use Rattle.flow_equations.specs.{ChoosesOneCell, ReceivesRecharge, TakesEvapotranspiration, HasGivenHeads};

/// An option of RCH or EVT chooses at most one cell of a column of layers.
#[tactic(auto, using(crate::proofs::ChosenCells::chooses_one))]
pub fn one_cell_of_a_column()
    ensures { (m : FlowModel) (layers : List ℤ) → ChoosesOneCell m layers }
{}

/// The chosen cell receives its rate of recharge times its area, and no other cell receives any.
#[tactic(auto, using(crate::proofs::ReceivedFlows::receives))]
pub fn recharge_is_rate_times_area()
    ensures { (m : FlowModel) (p n : ℕ) (old : ℕ → Fraction) (c : ℕ) → ReceivesRecharge m p n old c }
{}

/// Evapotranspiration takes its greatest rate at the surface and above, and nothing at the extinction depth and below.
pub fn evapotranspiration_by_depth()
    ensures { (m : FlowModel) → TakesEvapotranspiration m }
{}

/// A given head is Ehead at the last step, half-way after one of two equal steps, and kept in later periods.
pub fn given_heads()
    ensures { (m : FlowModel) → HasGivenHeads m }
{}
