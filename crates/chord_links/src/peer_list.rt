//! A list of at most 16 peers, stored inline.
ghost use Rattle.std.specs.Prelude.{◌≡◌, ◌+◌, ◌<◌, ◌≤◌, List, [], ◌∷◌, ◌++◌, length};

use crate::Peer;
use chord_ident::Id;
use std::marker::Model;

/// At most 16 peers, in order.
#[derive(Clone, Copy, Debug, PartialEq, Eq)]
pub struct PeerList {
    slots: [Peer; 16],
    len: usize,
}

impl Model for PeerList {
    ghost use Rattle.std.specs.Prelude.{◌≡◌, ◌≤◌, List, length, take};
    ghost use Rattle.chord_links.specs.declared.peer.Peer.{Peer};
    ghost use Rattle.chord_links.specs.PeerList.{padded_array};

    ghost Value = { List Peer };

    ghost view = { λ peers. take peers.len peers.slots };

    // Free elements are blank, so equal peers have equal arrays.
    ghost invariant = { λ peers. (peers.len ≤ 16) × (length peers.slots ≡ 16)
        × (peers.slots ≡ padded_array (take peers.len peers.slots)) };

    ghost inverse = { λ peers. record { slots = padded_array peers; len = length peers } };

    ghost use Rattle.std.proofs.Common.{arith, sym, length-take-le};

    ghost inverse_ok = { λ peers kept i. record {
      slots = sym kept.2 i;
      len = length-take-le peers.len peers.slots (omega (arith, kept.0, kept.1)) i;
    } };
}

/// The peer in each free element.
const BLANK: Peer = Peer {
    number: 0,
    id: Id { number: 0 },
};

impl PeerList {
    /// No peers.
    pub fn new() -> Self
        ensures { result ≡ [] }
    {
        PeerList {
            slots: [BLANK; 16],
            len: 0,
        }
    }

    /// The peers.
    pub fn as_slice(&self) -> &[Peer]
        ensures value { result.now ≡ self.now }
        ensures fits { length self.now ≤ 16 }
    {
        &self.slots[..self.len]
    }

    /// Adds a peer at the end.
    pub fn push(&mut self, peer: Peer)
        requires { length self.old < 16 }
        ensures { self.new ≡ self.old ++ peer ∷ [] }
    {
        self.slots[self.len] = peer;
        self.len += 1;
    }

    /// Adds peers at the end.
    pub fn extend_from_slice(&mut self, more: &[Peer])
        requires { length self.old + length more.now ≤ 16 }
        ensures { self.new ≡ self.old ++ more.now }
    {
        for peer in more {
            self.push(*peer);
        }
    }
}
