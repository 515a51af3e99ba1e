// How the bounds of a valid model enclose its exact numbers.
ghost use Rattle.std.specs.Prelude.{ℕ};
ghost use Rattle.decimal_input.specs.declared.dec.Dec.{Dec};
ghost use Rattle.decimal_input.specs.{number, IsSignedCeiling, IsSignedFloor};
ghost use Rattle.scaled_decimal.specs.{Lower, Upper};
ghost use Rattle.model_types.specs.declared.model.FlowModel.{FlowModel};
ghost use Rattle.model_types.specs.{IsModel};
ghost use Rattle.conductance_bounds.specs.{FormulasHold, FacesEnclose, StoragesEnclose, RechargesEnclose, EvapsEnclose, HeadsEnclose, units_at};

/// A number of the input in whole units is its floor, or its ceiling.
pub fn numbers_in_units()
    ensures floors { (d : Dec) (s : ℕ) → IsSignedFloor (units_at Lower d s) (number d) s }
    ensures ceilings { (d : Dec) (s : ℕ) → IsSignedCeiling (units_at Upper d s) (number d) s }
{}

/// The pairs of a valid model's faces enclose the manual's conductances.
pub fn faces_enclose()
    ensures { (m : FlowModel) → IsModel m → FacesEnclose m }
{}

/// The formulas of a valid model hold: no divisor of theirs has a bound of 0, so that each bound says something.
#[tactic(auto, using(crate::proofs::ModelBounds::formulas_hold))]
pub fn formulas_hold()
    ensures { (m : FlowModel) → IsModel m → FormulasHold m }
{}

/// The pairs of its storages, recharges and evapotranspirations enclose the exact values.
pub fn sources_enclose()
    ensures storages { (m : FlowModel) → IsModel m → StoragesEnclose m }
    ensures recharges { (m : FlowModel) → RechargesEnclose m }
    ensures evaps { (m : FlowModel) → EvapsEnclose m }
{}

/// The pairs of its given heads enclose the exact heads at every step.
pub fn heads_enclose()
    ensures { HeadsEnclose }
{}
