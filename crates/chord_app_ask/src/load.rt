//! The command `load`: many requests over several connections, and how long they took.

pub mod bounds;
pub mod cutting;
pub mod histogram;
pub mod progress;
pub mod report;
pub mod running;
pub mod worker;
