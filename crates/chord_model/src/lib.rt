//! The model: nodes, callers and messages, what they do,
//! and the theorem about all of it. It has no program.
//!
//! A world has nodes, callers, every message ever sent, and the history of the executed calls; one
//! step is one event of one node or one caller (`specs/Node.antt`, `specs/World.antt`). [`laws`]
//! has the theorem about every run: the executed requests are one history of one map of sets, each
//! at most once, and each identifier has one holder (`specs/Headline.antt`). A program is right if
//! each of its calls is one such step.
#![tactic(auto)]

mod holder;
pub mod laws;
mod message;
mod phase;

pub use holder::Holder;
pub use message::Message;
pub use phase::Phase;
