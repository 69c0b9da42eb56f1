//! The console: one step or query of a world on a line, and one line out for each line in.
//!
//! [`world`] does a whole session over the stores that it gets, one for each node that may join.
#![tactic(auto)]

mod line;
mod refusal;
mod session;
mod stores;

pub use session::world;
pub use stores::{add_store, empty_ones};
