//! Threads that serve many connections each.
//!
//! An event loop waits for the streams of all its connections at once, reads what came, has each
//! [`Link`](chord_serve::Link) answer, and writes. A connection whose next request waits is tried
//! again later, and no other one waits for it. An [`Owner`] says which link serves a connection
//! that begins ([`Guest`]). All connections begin on the first loop ([`Loops`]); where that does
//! not sleep any more it gives some of them to the others. A [`Budget`] limits what all hold.
//!
//! Operators have an event loop of their own ([`OperatorLoop`]), with few connections, which
//! accepts them itself.
#![tactic(auto)]

mod budget;
mod closing;
mod event_loop;
mod guest;
mod loops;
mod operators;
mod owner;
mod rules;
mod seat;
mod socket;
mod timer;

pub use budget::Budget;
pub use guest::Guest;
pub use loops::Loops;
pub use operators::{OperatorGate, OperatorLimits, OperatorLoop, Reception};
pub use owner::{Met, Owner};
pub use rules::Rules;
pub use socket::Socket;
