//! A store of pairs by the identifiers of their keys, in shards.
//!
//! [`TreeStore`] is the store to use for many pairs. Each shard has the keys of neighbouring
//! identifiers in a hash map. Keys of one identifier share a slot.
#![tactic(auto)]

mod copies;
mod shard;
mod shelf;
mod slot;
mod slots;
mod tree_store;
mod value_set;

pub use tree_store::TreeStore;
