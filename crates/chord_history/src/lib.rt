//! The executed calls of a world, in the order in which they were executed.
//!
//! A [`History`] only grows. [`History::add`] wants room for its call, which [`History::reserve`]
//! makes, so that whoever executes a call can refuse it before it is executed.
#![tactic(auto)]

mod history;

pub use history::History;
