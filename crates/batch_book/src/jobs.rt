ghost use Rattle.std.specs.Prelude.{◌≡◌, ℕ, ◌<◌, IfOk};

use std::alloc::{AllocError, Global};

/// Jobs that are numbered from 0, and what is an end of each.
pub trait Jobs {
    type End;

    // The number of jobs.
    ghost number: { Self → ℕ };

    // Whether a value is an end of the job with this number.
    ghost is_end: { Self → ℕ → Self.End → Type 0 };

    /// The number of jobs.
    fn count(&self) -> u32
        ensures { result ≡ number self.now };

    /// Runs a job to its end. The error is out of memory.
    fn end_of(&self, alloc: Global, job: u32) -> Result<Self::End, AllocError>
        requires { job < number self.now }
        ensures { IfOk result (λ e. is_end self.now job e) };
}
