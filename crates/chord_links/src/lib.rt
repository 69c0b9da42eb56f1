//! What a node knows of other nodes: its neighbours on the circle, and its fingers.
//!
//! [`Links`] has a node's predecessor, its list of successors
//! ([`SuccList`]) and a finger for each power of two ([`Fingers`]). Each
//! neighbour is a [`Peer`]: a number to reach it by, and its identifier.
#![tactic(auto)]

mod fingers;
mod links;
mod peer;
mod peer_list;
mod successors;

pub use fingers::Fingers;
pub use links::Links;
pub use peer::Peer;
pub use successors::{Empty, SuccList};
