// Laws of events. Each is the contract of an empty function.
ghost use Rattle.relax_core.specs.{EventsKeep, EdgesAreKept, EventsKeepHeads};

/// For every problem, barrier and list of events: the words stay on the way from the barrier. So they are a
/// certificate and pass no settled heads, and none becomes looser. This holds for every schedule.
pub fn events_keep()
    ensures { EventsKeep }
{}

/// A barrier's own words, which each actor has seen, are kept.
pub fn edges_are_kept()
    ensures { EdgesAreKept }
{}

/// What an event keeps of the heads on one side, without a list of actors.
pub fn events_keep_heads()
    ensures { EventsKeepHeads }
{}
