//! Whether the listed heads of a step of a model with convertible layers hold: all heads between are gentle, and the balances have their signs.
#![tactic(auto)]

mod constants;
pub mod fault;
mod heads;
pub mod laws;
pub mod posed;
mod sides;
mod signs;
mod storage;
mod table;

pub use fault::GentleFault;
pub use heads::test_heads;
pub use posed::Posed;
pub use sides::one_head;
