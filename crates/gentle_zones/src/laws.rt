// What the flows between zones say of a step.
ghost use Rattle.gentle_zones.specs.{FlowsHold};

/// At all heads that the listed ones enclose, each flow between two zones lies between its two bounds.
pub fn flows_hold()
    ensures { FlowsHold }
{}
