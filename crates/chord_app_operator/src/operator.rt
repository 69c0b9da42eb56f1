//! Who does what an operator asks for.

mod holder;
mod pairs;
mod refusals;
mod trait_operator;

pub use holder::Holder;
pub use pairs::{PageState, Pair, PairsPage};
pub use refusals::{CrashRefusal, JoinRefusal, LeaveRefusal, RescueRefusal};
pub use trait_operator::Operator;
