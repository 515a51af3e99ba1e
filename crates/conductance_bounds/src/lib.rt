//! Rounded bounds of conductances, storage, recharge, evaporation and given heads. Each bound is one number: the
//! formula's, each single operation rounded to its side; and the exact value lies between the two.
#![tactic(auto)]

mod area;
pub mod evaporation;
pub mod head;
pub mod horizontal;
mod interval;
pub mod laws;
pub mod pair;
pub mod part;
pub mod recharge;
pub mod span;
pub mod storage;
pub mod vertical;

pub use evaporation::evap_branch;
pub use head::{HeadPair, given_head, head_bounds, whole_bounds};
pub use horizontal::{ColHalf, Half, col_branch, row_branch};
pub use pair::{FlowPair, Pair, number_pair};
pub use part::{Part, time_part};
pub use recharge::{number_flow, recharge_flow};
pub use span::{Span, thickness};
pub use storage::{Factors, step_factors, storage_branch};
pub use vertical::{Bed, VertHalf, vert_branch};
