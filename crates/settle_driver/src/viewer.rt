// Who looks at heads while they settle.
ghost use Rattle.std.specs.Prelude.{◌≡◌, ℕ, ◌+◌, List, true, false};
ghost use Rattle.step_problem.specs.{IsBarrier, Edges};
ghost use Rattle.settle_driver.specs.Views.{EnclosesPair};
ghost use Rattle.step_problem.specs.Entries.{Entries};

use step_problem::{Barrier, Bound, Problem};

/// Looks at the heads of a problem while it settles; they enclose the settled pair. A viewer says how many views lead
/// from one of its states to another, and when it has stopped: from its first view that gives false.
pub trait Viewer {
    ghost viewed: { Self → List Entries → Edges → ℕ → Self → Type 0 };

    ghost stopped: { Self → Type 0 };

    /// Gives whether the viewer goes on.
    fn view(&mut self, p: &Problem, b: &Barrier, heads: &[Bound]) -> bool
        requires barrier { IsBarrier p.now b.now }
        requires heads { EnclosesPair p.now b.now heads.now }
        ensures one_more { result ≡ true → (start : Self) (n : ℕ) → viewed start p.now b.now n self.old → viewed start p.now b.now (n + 1) self.new }
        ensures none_more { result ≡ false → (start : Self) (n : ℕ) → viewed start p.now b.now n self.old → viewed start p.now b.now n self.new }
        ensures stops { result ≡ false → stopped self.new }
        ensures goes_on { result ≡ true → stopped self.new → ⊥ }
        ensures stays { stopped self.old → result ≡ false };

    // No view leads from a viewer to itself.
    ghost rests: { (s : Self) (p : List Entries) (b : Edges) → viewed s p b 0 s };
}

/// Is shown nothing.
#[derive(Drop)]
pub struct NoViewer;

impl Viewer for NoViewer {
    ghost viewed = { λ _ _ _ _ _. Unit {0} };

    ghost stopped = { λ _. ⊥ };

    fn view(&mut self, _p: &Problem, _b: &Barrier, _heads: &[Bound]) -> bool {
        true
    }

    ghost rests = { λ _ _ _. tt };
}
