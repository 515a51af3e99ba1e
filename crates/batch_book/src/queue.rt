// The queue of job numbers, from which each worker takes the next.
ghost use Rattle.std.specs.Prelude.{◌≡◌, ℕ, ◌<◌, ◌≤◌, ◌+◌, ◌∷◌, [], length, IfSome};
ghost use Rattle.crossbeam_queue.specs.Passes.{view, IsPassOf, ruled_capacity};
ghost use Rattle.batch_book.specs.Numbers.{AreOnce, numbers_from};

use crossbeam_queue::protocol::{Lesson, Outcome, Protocol, Split};
use crossbeam_queue::{Pass, RuledArrayQueue};
use std::collections::LinkedList;
use std::marker::{Brand, PhantomData};
use std::sync::Wait;

/// The numbers that a pass holds. No value of it is made.
pub(crate) type Held = LinkedList<u32>;

/// The number of jobs, for the rule. Each call picks it.
pub(crate) trait Counted {
    ghost jobs: { ℕ };
}

impl Counted for Brand {
    ghost jobs = { 0 };
}

/// The rule of the queue: each job number is in the queue or with one pass, once.
pub(crate) struct Once<N> {
    count: PhantomData<N>,
}

impl<N: Counted> Protocol<u32, Held> for Once<N> {
    ghost holds = { AreOnce N.jobs };

    ghost first = { numbers_from 0 N.jobs };
}

// A push: the first number that the pass holds goes into the queue.
struct Pushed<N> {
    count: PhantomData<N>,
}

impl<N: Counted> Outcome<u32, Held> for Pushed<N> {
    ghost then = { λ before x after. before ≡ x ∷ after };
}

// A push finds room: the queue and the pass have no more numbers than there are jobs.
impl<N: Counted> Lesson<u32, Held> for Pushed<N> {
    ghost fact = { λ held items. length items + length held ≤ N.jobs };
}

// A pop: a number of the queue goes to the pass.
struct Popped<N> {
    count: PhantomData<N>,
}

impl<N: Counted> Outcome<u32, Held> for Popped<N> {
    ghost then = { λ before x after. (x < N.jobs) × (after ≡ x ∷ before) };
}

impl<N: Counted> Lesson<u32, Held> for Popped<N> {
    ghost fact = { λ held items. Unit {0} };
}

/// A new pass begins without numbers.
pub(crate) struct NewPass;

impl Split<Held> for NewPass {
    ghost left = { λ held. held };

    ghost right = { λ held. [] };
}

pub(crate) type Queue<N> = RuledArrayQueue<u32, Held, Once<N>>;

/// Puts all job numbers into the queue, in order.
#[tactic(auto, using(crate::proofs::Queued::push_keeps_once, crate::proofs::Queued::learned_items_are_few, crate::proofs::Queued::numbers_step, crate::proofs::Queued::same_rest))]
pub(crate) fn push_all<N: Counted, R: Wait>(
    rt: &R,
    queue: &Queue<N>,
    pass: &mut Pass<u32, Held>,
    count: u32,
)
    requires pass { IsPassOf queue.now pass.old }
    requires all { view pass.old ≡ numbers_from 0 count }
    requires count { (N.jobs ≡ count) × (ruled_capacity queue.now ≡ count) }
    ensures { IsPassOf queue.now pass.new × (view pass.new ≡ []) }
{
    for job in 0..count {
        match queue.push_as::<Pushed<N>, R>(rt, pass, job) {
            Ok(()) => {}
            Err(_) => unreachable!(),
        }
    }
}

/// Takes the next job number.
pub(crate) fn pop_next<N: Counted, R: Wait>(
    rt: &R,
    queue: &Queue<N>,
    pass: &mut Pass<u32, Held>,
) -> Option<u32>
    requires { IsPassOf queue.now pass.old }
    ensures pass { IsPassOf queue.now pass.new }
    ensures job { IfSome result (λ job. (job < N.jobs) × (view pass.new ≡ job ∷ view pass.old)) }
{
    queue.pop_as::<Popped<N>, R>(rt, pass)
}
