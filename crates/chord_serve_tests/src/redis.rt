//! Redis's protocol: its words, and sessions over memory.

pub mod connections;
pub mod words;
