//! Who asks a running ring (`chord_live_ring::Ring`).
//!
//! A [`RingCaller`] submits requests, sends them, and waits for their replies. There are two kinds,
//! by the [`AskingCore`] that each has. A [`RingClient`] hands each reply out and stores none, so
//! its memory is bounded by its window. A [`Caller`] stores all that it took, and gives notes of
//! what it knows for other callers to meet. [`OpenCaller`] lets a ring open both.
//!
//! `caller.call(&rt, 0, request)` does each node's event on the calling thread;
//! `caller.ask(&rt, 0, request)` goes through inboxes and workers.
//!
//! Each has its seat of the table, so all that they took is in one history of one map of sets.
#![tactic(auto)]

mod guesses;
mod keeping;
mod last_key;
mod opening;
mod ring_caller;
mod route;

pub use chord_live_steps::{AskingCore, NoteEnvelope};
pub use keeping::Caller;
pub use opening::OpenCaller;
pub use ring_caller::{RingCaller, RingClient};
