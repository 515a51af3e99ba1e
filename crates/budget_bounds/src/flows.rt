// The single flows of entries, by their bounds.
ghost use Rattle.std.specs.Prelude.{◌≡◌, ◌<◌, ◌*◌, ◌^◌};
ghost use Rattle.budget_bounds.specs.Terms.{entry_pair, fixed_term, flow_term};
ghost use Rattle.step_problem.specs.declared.place.Term.TheVariants.{Drains, Et, RiverLeakage};
ghost use Rattle.budget_bounds.specs.Exact.{AreHeads, IsFlow};

use crate::cover::{fixed_term, flow_term};
use crate::pair::TermPair;
use step_problem::{Bound, Branch, Drain, Evap, Fixed, Flow, River, Side, Term};

/// An entry of a cell, as a single flow of the budget.
pub(crate) trait Entry: Branch {
    ghost use Rattle.step_problem.specs.declared.place.Term.{Term};

    ghost of: { Self → Term };

    /// The term of its flow.
    fn term(&self) -> Term
        ensures { result ≡ of self.now };
}

/// The bounds of an entry's flow where the cell's head lies between the two bounds `own`. The flow falls in the cell's head:
/// it is least at the upper head and greatest at the lower one.
pub(crate) fn entry_pair<B: Branch>(x: &B, own: Bound) -> TermPair
    requires own { AreHeads own }
    requires fits { B.fits x.now }
    requires weight { B.weight x.now * B.unit < 2 ^ 123 }
    ensures value { result ≡ entry_pair B.flow own.low own.high x.now }
    ensures flow { IsFlow result }
{
    TermPair {
        lo: x.flow_at(Side::Low, own.high),
        hi: x.flow_at(Side::High, own.low),
    }
}

impl Entry for Flow {
    ghost of = { λ x. flow_term x.kind };

    fn term(&self) -> Term {
        flow_term(self.kind)
    }
}

impl Entry for Fixed {
    ghost of = { λ x. fixed_term x.kind };

    fn term(&self) -> Term {
        fixed_term(self.kind)
    }
}

impl Entry for River {
    ghost of = { λ x. RiverLeakage };

    fn term(&self) -> Term {
        Term::RiverLeakage
    }
}

impl Entry for Drain {
    ghost of = { λ x. Drains };

    fn term(&self) -> Term {
        Term::Drains
    }
}

impl Entry for Evap {
    ghost of = { λ x. Et };

    fn term(&self) -> Term {
        Term::Et
    }
}
