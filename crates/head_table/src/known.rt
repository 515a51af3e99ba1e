// What a seat knows, the rule of the table, and what each kind of step ensures.
use atomic_table::{Join, Play, Split, TableRule};
use std::collections::LinkedList;
use std::snapshot::Snapshot;
use step_problem::{Barrier, Bound, Problem};

/// What a seat knows: the bounds that it has seen, and the problem and the barrier of its table. It exists
/// only in proofs.
pub struct Known {
    pub live: bool,
    pub seen: LinkedList<Bound>,
    pub problem: Problem,
    pub barrier: Barrier,
}

/// The facts with which a table is made.
#[derive(Drop)]
pub struct Facts {
    pub problem: Snapshot<Problem>,
    pub barrier: Snapshot<Barrier>,
    pub words: Snapshot<Vec<Bound>>,
}

/// The rule of a table of heads.
pub struct Heads;

impl TableRule<(), Known, Facts> for Heads {
    ghost use Rattle.head_table.specs.Rule.{IsTableKept, starting};

    ghost holds = { λ key. IsTableKept key.problem.value key.barrier.value };

    ghost first = { λ key. starting key.words.value.items key.problem.value key.barrier.value };
}

// A load of a head.
pub(crate) struct Look;

impl Play<(), Known> for Look {
    ghost use Rattle.head_table.specs.Rule.{load_play};

    ghost then = { load_play };
}

// A raise or a sink.
pub(crate) struct Tighten;

impl Play<(), Known> for Tighten {
    ghost use Rattle.head_table.specs.Rule.{exchange_play};

    ghost then = { exchange_play };
}

pub(crate) struct Claim;

impl Play<(), Known> for Claim {
    ghost use Rattle.head_table.specs.Rule.{claim_play};

    ghost then = { claim_play };
}

// A new seat has seen what the old one has.
pub(crate) struct Same;

impl Split<Known> for Same {
    ghost left = { λ v. v };

    ghost right = { λ v. v };
}

// The seat that remains has seen the tighter of both.
pub(crate) struct Both;

impl Join<Known> for Both {
    ghost use Rattle.head_table.specs.Rule.{join_views, spent_view};

    ghost both = { join_views };

    ghost spent = { spent_view };
}
