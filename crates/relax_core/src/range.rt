// Tests of the premises of `apply` on a state and an event.
ghost use Rattle.std.specs.Prelude.{◌↔◌, IsTrue, All};
ghost use Rattle.cell_relax.specs.{AreWords};
ghost use Rattle.relax_core.specs.{IsInRange, IsNamed};

use crate::events::Event;
use crate::state::State;
use cell_relax::are_words;
use step_problem::{Bound, Problem};

// Whether each list is one bound for each cell, with heads in range.
fn are_all_words(p: &Problem, lists: &[Vec<Bound>]) -> bool
    ensures { IsTrue result ↔ All (λ v. AreWords p.now v.items) lists.now }
{
    lists.iter().all(|v| are_words(p, v.as_slice()))
}

impl State {
    /// Whether the words and all that was seen are one bound for each cell, with heads in range.
    pub fn is_in_range(&self, p: &Problem) -> bool
        ensures { IsTrue result ↔ IsInRange p.now self.now }
    {
        are_words(p, self.words.as_slice()) && are_all_words(p, self.seen.as_slice())
    }

    /// Whether an event names an actor of the state and a cell of the problem.
    pub fn names(&self, p: &Problem, event: Event) -> bool
        ensures { IsTrue result ↔ IsNamed p.now self.now event }
    {
        match event {
            Event::See { actor, cell, .. }
            | Event::Raise { actor, cell }
            | Event::Sink { actor, cell } => {
                (actor as usize) < self.seen.len() && (cell as usize) < p.len()
            }
            Event::Claim { actor } => (actor as usize) < self.seen.len(),
        }
    }
}
