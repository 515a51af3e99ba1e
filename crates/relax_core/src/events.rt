// Events on shared heads. Actors and cells are named by their indices.
use step_problem::Side;

/// One atomic action of an actor on one word.
#[derive(Clone, Copy)]
pub enum Event {
    /// The actor sees the word of the cell on that side.
    See { actor: u32, cell: u32, side: Side },
    /// The lower word becomes the greater of itself and the raise value from what the actor has seen.
    Raise { actor: u32, cell: u32 },
    /// The upper word becomes the lesser of itself and the sink value from what the actor has seen.
    Sink { actor: u32, cell: u32 },
    /// The actor claims a turn, which changes no word.
    Claim { actor: u32 },
}
