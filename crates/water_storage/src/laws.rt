// What the bounds of stored water say.
ghost use Rattle.water_storage.specs.{StoredFlowsEnclose};

/// The bounds enclose the flow of stored water from each head within the old bounds to each one within the new bounds.
pub fn stored_flows_enclose()
    ensures { StoredFlowsEnclose }
{}
