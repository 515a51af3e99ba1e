// The trait of a settler.
ghost use Rattle.std.specs.Prelude.{◌≡◌, ℕ, Bool, List};
ghost use Rattle.std.specs.Result.{is_ok};
ghost use Rattle.step_problem.specs.Entries.{Entries};
ghost use Rattle.step_problem.specs.Heads.{Edges, IsBarrier};
ghost use Rattle.step_problem.specs.Settling.{PairKind, Gives};

use crate::heads::{Barrier, Bound, SettleFault};
use crate::problem::Problem;
use std::alloc::Global;

/// Gives the pairs of problems, settled ones or certificates (`pairs`). `rounds`: how many plain rounds it may use; no call
/// changes it. `ready`: when it may be called. `leads`: how a call may change it.
pub trait Settler {
    ghost pairs: { PairKind };

    ghost rounds: { Self → ℕ };

    ghost ready: { Self → Type 0 };

    ghost leads: { Self → List Entries → Edges → Bool → Self → Type 0 };

    fn settle(&mut self, alloc: Global, p: &Problem, b: &Barrier) -> Result<Vec<Bound>, SettleFault>
        requires ready { ready self.old }
        requires barrier { IsBarrier p.now b.now }
        ensures settles { Gives p.now pairs b.now (rounds self.old) result }
        ensures rounds { rounds self.new ≡ rounds self.old }
        ensures ready { ready self.new }
        ensures leads { leads self.old p.now b.now (is_ok result) self.new };
}
