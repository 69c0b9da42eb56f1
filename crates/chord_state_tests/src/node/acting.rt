//! The scripts of nodes.
//!
//! `found 1` begins with node 0, at A, which holds the circle and has room for 1 pair; `newborn 1
//! 1@C` with node 1, at C, which holds nothing, and with `0@A` behind it lists node 0 and then
//! itself. A script that says neither has `newborn 1 1@C`. `into-store` takes the store out and
//! uses it: how many pairs it has, and the outcome of inserting the key under itself, and then the
//! value. Other deeds are those of `deeds`.
//!
//! Behind `; ` stands how the node stands: its phase, the spans that it holds, the number of its
//! pairs, `out` with the items of its outbox (`1#2 (A C] 3`: its second handover to node 1, with 3
//! pairs), and `took 1 0 0`, the numbers of the last handovers that it took from nodes 0, 1 and 2.
//! It says nothing of what there is none of.

use super::deeds::{deed, name, pair};
use super::stands::stands;
use super::{found, newborn};
use chord_app_text::{LineFault, Words};
use chord_ident::Id;
use chord_links::{Links, Peer, SuccList};
use chord_map::Pair;
use chord_node::{Node, Phase};
use chord_store::{CappedStore, EntryStore, StoreFault};
use chord_testkit::{Fresh, MEMORY, Subject, Text, peer};
use std::alloc::Global;
use std::mem;

/// A node, which calls are lent to (by `on_ask`, which gives a copy of what it executes), or which
/// takes them over (by `take_ask`; the segment shows what was executed).
#[derive(Drop)]
pub struct Acting<const IS_LENT: bool> {
    alloc: Global,
    node: Node<CappedStore>,
}

impl<const IS_LENT: bool> Fresh for Acting<IS_LENT> {
    fn fresh(alloc: Global) -> Acting<IS_LENT> {
        Acting {
            alloc,
            node: newborn(alloc, 1),
        }
    }
}

impl<const IS_LENT: bool> Subject for Acting<IS_LENT> {
    fn act(&mut self, words: &mut Words) -> Result<Text, LineFault> {
        let alloc = self.alloc;
        let mut ahead = *words;
        match ahead.word()? {
            "found" => {
                *words = ahead;
                Ok(begin_with(&mut self.node, founded(alloc, words.number()?)))
            }
            "newborn" => {
                *words = ahead;
                Ok(begin_with(&mut self.node, Some(newborn_of(alloc, words)?)))
            }
            "into-store" => {
                *words = ahead;
                Ok(give_back(alloc, &mut self.node, pair(alloc, words)?))
            }
            _ => deed(alloc, &mut self.node, IS_LENT, words),
        }
    }

    fn show(&self) -> Text {
        stands(&self.node)
    }
}

fn founded(alloc: Global, limit: u64) -> Option<Node<CappedStore>> {
    found(alloc, CappedStore::new(alloc, limit))
}

fn newborn_of(alloc: Global, words: &mut Words) -> Result<Node<CappedStore>, LineFault> {
    let limit = words.number()?;
    let me = peer(words)?;
    let other = if words.has_more() {
        Some(peer(words)?)
    } else {
        None
    };
    Ok(newborn_before(alloc, limit, me, other))
}

/// A node that holds nothing, and lists another one, if there is one, and then itself.
fn newborn_before(alloc: Global, limit: u64, me: Peer, other: Option<Peer>) -> Node<CappedStore> {
    let alone = Links::alone(me, 3);
    let mut node = Node::newborn(alloc, alone, CappedStore::new(alloc, limit));
    if let Some(other) = other {
        let mut links = alone;
        links.set_list(SuccList::behind_successor(me, 3, other, alone.list()));
        node.set_links(links);
    }
    node
}

/// The node of the script, if there was memory for one.
fn begin_with(place: &mut Node<CappedStore>, node: Option<Node<CappedStore>>) -> Text {
    let Some(node) = node else {
        return Text::of(MEMORY);
    };
    let before = mem::replace(place, node);
    drop(before);
    name(place)
}

/// Uses the store of a node, in whose place is a newborn one then.
fn give_back(alloc: Global, place: &mut Node<CappedStore>, pair: Pair) -> Text {
    let node = mem::replace(place, newborn(alloc, 1));
    if node.phase() == Phase::Gone {
        drop(node);
        drop(pair);
        return Text::of("Gone");
    }
    use_store(node.into_store(), pair)
}

fn use_store(mut store: CappedStore, pair: Pair) -> Text {
    let count = store.count();
    let id = Id::of_bytes(pair.key.as_slice());
    let first = store.insert(id, &pair.key, &pair.key);
    let second = store.insert(id, &pair.key, &pair.value);
    drop(store);
    drop(pair);
    if first == Err(StoreFault::Memory) {
        return Text::of(MEMORY);
    }
    Text::of(format_args!("count {count}, {first:?}, {second:?}"))
}
