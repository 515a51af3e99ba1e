// What signs at gentle heads say of all other gentle heads.
ghost use Rattle.water_enclosure.specs.{GreaterBalancesLieLower, SignsEncloseHistories, SignsEncloseFlows, HasOneGentleHead};

/// Gentle heads at which every variable cell gains more than at others lie nowhere above these.
pub fn greater_balances_lie_lower()
    ensures { GreaterBalancesLieLower }
{}

/// Listed pairs with the signs enclose every history of gentle heads that nearly solves the model.
#[tactic(auto, using(crate::proofs::Histories::signs_enclose_histories))]
pub fn signs_enclose_histories()
    ensures { SignsEncloseHistories }
{}

/// And its flows lie between those at the listed heads: branches to constant-head neighbours, general heads, rivers, drains, evapotranspiration, storage.
#[tactic(auto, using(crate::proofs::Histories::signs_enclose_flows))]
pub fn signs_enclose_flows()
    ensures { SignsEncloseFlows }
{}

/// The pumped cell, which 0.6 m and 0.25 m both balance: its gentle heads lie within 10^-8 m of 0.6 m.
#[tactic(auto, using(crate::proofs::Pumped::has_one_gentle_head))]
pub fn pumped_cell_has_one_gentle_head()
    ensures { HasOneGentleHead }
{}
