//! Requests, replies and the plain map of sets: a key store without a ring.
//!
//! A [`PlainMap`] has a set of values for each key, and [`PlainMap::apply`] executes a [`Request`]
//! and gives its [`Reply`]. All else is measured by it: whatever the nodes of a ring do, their
//! replies are those of one such map.
//!
//! Keys have 1 to 255 bytes, values up to 4,096, and a set at most 1,000 values ([`limits`]).
#![tactic(auto)]

mod block;
mod bytes;
mod done;
pub mod limits;
mod long;
mod pair;
mod pair_list;
mod plain_map;
mod reply;
mod request;
mod shared_values;
mod short;
mod values;

pub use bytes::Bytes;
pub use done::{Done, copy_dones, find_done};
pub use pair::Pair;
pub use pair_list::PairList;
pub use plain_map::PlainMap;
pub use reply::Reply;
pub use request::{Request, RequestFault};
pub use shared_values::SharedValues;
pub use values::Values;
