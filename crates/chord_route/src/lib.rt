//! The next hop towards an identifier, and the lookup that follows the hops.
//!
//! [`next_hop`] answers from a node's links whether the identifier belongs to its first entry, or
//! which node to ask next. [`find_successor`] follows the hops over any [`LinkReader`]; on an ideal
//! ring it finds the node whose interval contains the identifier.
#![tactic(auto)]

mod hop;
mod lookup;

pub use hop::{Hop, next_hop};
pub use lookup::{LinkReader, LookupFault, find_predecessor, find_successor};
