//! The integer data of one time step: its variable cells, their two balances, and what settling them means.
#![tactic(auto)]

pub mod balance;
pub mod entry;
pub mod fitting;
pub mod flow;
pub mod heads;
pub mod laws;
pub mod place;
pub mod problem;
pub mod refusal;
pub mod settler;

pub use balance::branch::Branch;
pub use balance::{high_at, low_at, sum_branches, sum_of};
pub use entry::{Cell, Drain, Evap, Fixed, FixedKind, Flow, FlowKind, Link, River};
pub use fitting::{conductances_fit, fits, flows_fit};
pub use flow::branch_flow;
pub use heads::{Barrier, Bound, Open, SettleFault, Side};
pub use place::{Dir, NoBound, Place, Term, ZoneFlow};
pub use problem::{Problem, are_heads, is_head};
pub use refusal::{BoundFault, StepRefusal};
pub use settler::Settler;
