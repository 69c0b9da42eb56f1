//! One node.

mod acting;
mod asks;
mod calls;
mod counted_store;
mod deeds;
mod growths;
mod handovers;
mod leaving;
mod stands;

use chord_ident::Id;
use chord_links::{Links, Peer};
use chord_model::laws;
use chord_node::Node;
use chord_node::laws::no_delivery_clashes;
use chord_store::{CappedStore, EntryStore};
use std::alloc::Global;

const A: u128 = 0x40000000000000000000000000000000;

pub const C: u128 = 0xc0000000000000000000000000000000;

/// Node 0, at A, which holds the whole circle, if there is memory.
pub fn found<S: EntryStore>(alloc: Global, store: S) -> Option<Node<S>> {
    if store.count() != 0 {
        return None;
    }
    let me = Peer {
        number: 0,
        id: Id::new(A),
    };
    Node::found(alloc, me, 3, store).ok()
}

/// Node 1, at C, which holds nothing.
pub fn newborn(alloc: Global, limit: u64) -> Node<CappedStore> {
    let me = Peer {
        number: 1,
        id: Id::new(C),
    };
    Node::newborn(alloc, Links::alone(me, 3), CappedStore::new(alloc, limit))
}

#[test]
fn laws_are_called() {
    no_delivery_clashes();
    laws::one_holder();
    laws::no_clash();
    laws::parts_fit();
    laws::one_history();
    laws::none_twice();
    laws::some_run();
    laws::every_rule();
    laws::two_parts();
    laws::seen_first();
}
