//! The thread that serves all operators of a server.

mod gate;
mod operator_loop;
mod place;
mod stream;
mod visitor;

pub use gate::{OperatorGate, OperatorLimits, Reception};
pub use operator_loop::OperatorLoop;
