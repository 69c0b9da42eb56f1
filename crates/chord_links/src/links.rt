//! What a node knows of other nodes.

ghost use Rattle.std.specs.Prelude.{◌≡◌, ◌<◌, ◌≤◌, length, None};

use crate::{Fingers, Peer, SuccList};
use std::marker::Model;

/// A node's links: its predecessor, if known, its list of at most r successors, and its fingers.
#[derive(Clone, Copy, Debug, PartialEq, Eq)]
pub struct Links {
    me: Peer,
    r: usize,
    predecessor: Option<Peer>,
    list: SuccList,
    fingers: Fingers,
}

impl Model for Links {
    ghost use Rattle.std.specs.Prelude.{◌≡◌, ◌<◌, ◌≤◌, length};
    ghost use Rattle.chord_links.specs.NodeLinks.{NodeLinks};
    ghost use Rattle.std.proofs.Common.{sym};

    ghost Value = { NodeLinks };

    ghost view = { λ links. record {
      me = links.me;
      r = links.r;
      predecessor = links.predecessor;
      entries = links.list.entries;
      fingers = links.fingers;
    } };

    ghost invariant = { λ links.
        (links.list.owner ≡ links.me.id.number) × (2 ≤ links.r) × (links.r ≤ 16)
        × (length links.list.entries ≤ links.r) × (links.fingers.me ≡ links.me) };

    ghost inverse = { λ links. record {
      me = links.me;
      r = links.r;
      predecessor = links.predecessor;
      list = record { owner = links.me.id.number; entries = links.entries };
      fingers = links.fingers;
    } };

    ghost inverse_ok = { λ links kept i. record {
      me = links.me;
      r = links.r;
      predecessor = links.predecessor;
      list = record { owner = sym kept.0 i; entries = links.list.entries };
      fingers = links.fingers;
    } };
}

impl Links {
    ghost use Rattle.chord_links.specs.Fingers.{with_finger};
    ghost use Rattle.chord_links.specs.NodeLinks.{alone, first_entry, with_entries};

    /// The links of a node that knows no other node, with room for r entries in its list.
    pub fn alone(me: Peer, r: usize) -> Self
        requires low { 2 ≤ r }
        requires high { r ≤ 16 }
        ensures { result ≡ alone me r }
    {
        Links {
            me,
            r,
            predecessor: None,
            list: SuccList::alone(me),
            fingers: Fingers::none(me),
        }
    }

    /// The node itself.
    pub fn me(&self) -> Peer
        ensures { result ≡ self.now.me }
    {
        self.me
    }

    /// The most entries of its list.
    pub fn r(&self) -> usize
        ensures value { result ≡ self.now.r }
        ensures low { 2 ≤ self.now.r }
        ensures high { self.now.r ≤ 16 }
    {
        self.r
    }

    /// The predecessor, if known.
    pub fn predecessor(&self) -> Option<Peer>
        ensures { result ≡ self.now.predecessor }
    {
        self.predecessor
    }

    /// The list of successors.
    pub fn list(&self) -> &SuccList
        ensures value { result.now ≡ record { owner = self.now.me.id.number; entries = self.now.entries } }
        ensures short { length self.now.entries ≤ self.now.r }
    {
        &self.list
    }

    /// The node's fingers.
    pub fn fingers(&self) -> &Fingers
        ensures value { result.now ≡ self.now.fingers }
        ensures owner { self.now.fingers.me ≡ self.now.me }
    {
        &self.fingers
    }

    /// The first entry of the list.
    pub fn first(&self) -> Peer
        ensures { result ≡ first_entry self.now }
    {
        self.list.first()
    }

    /// Sets the predecessor.
    pub fn set_predecessor(&mut self, predecessor: Option<Peer>)
        ensures { self.new ≡ record self.old { predecessor = predecessor } }
    {
        self.predecessor = predecessor;
    }

    /// Sets the list; it has the same owner and at most r entries.
    pub fn set_list(&mut self, list: SuccList)
        requires owner { list.owner ≡ self.old.me.id.number }
        requires short { length list.entries ≤ self.old.r }
        ensures { self.new ≡ with_entries self.old list.entries }
    {
        self.list = list;
    }

    /// Sets the node of finger `i`.
    pub fn set_finger(&mut self, i: usize, node: Peer)
        requires { (1 ≤ i) × (i ≤ 128) }
        ensures { self.new ≡ record self.old { fingers = with_finger self.old.fingers i node } }
    {
        self.fingers.set(i, node);
    }
}
