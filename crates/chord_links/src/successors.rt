//! A node's list of successors.
ghost use Rattle.std.specs.Prelude.{◌≡◌, ◌-◌, ◌<◌, ◌≤◌, [], ◌∷◌, length, take, drop, slice_get, Some, IsOk, OnOk, OnErr, ◌↔◌, IsTrue};
ghost use Rattle.chord_ident.specs.Circle.{walk};
ghost use Rattle.chord_links.specs.Successors.{Rises, rising_front, behind_successor, behind_predecessor};

use crate::Peer;
use crate::peer_list::PeerList;
use chord_ident::{Id, between};
use std::marker::Model;
use thiserror::Error;

/// At least one peer, at strictly rising distances from the owner. The owner itself is the whole
/// circle away, so it can only be last.
#[derive(Clone, Copy, Debug, PartialEq, Eq)]
pub struct SuccList {
    owner: Id,
    peers: PeerList,
}

impl Model for SuccList {
    ghost use Rattle.std.specs.Prelude.{◌<◌, length};
    ghost use Rattle.chord_links.specs.Successors.{Successors, Rises};

    ghost Value = { Successors };

    ghost view = { λ list. record { owner = list.owner.number; entries = list.peers } };

    ghost invariant = { λ list. (0 < length list.peers) × Rises list.owner.number 0 list.peers };

    ghost inverse = { λ list. record { owner = record { number = list.owner }; peers = list.entries } };
}

/// Whether `next` is farther from the owner than `last`, going clockwise.
fn is_farther(owner: Id, last: Id, next: Id) -> bool
    ensures { IsTrue result ↔ (walk owner.number last.number < walk owner.number next.number) }
{
    between(owner, last, next)
}

/// The length of the longest prefix of the peers at
/// rising distances from the owner, all beyond `past`.
fn rising_len(owner: Id, past: Id, peers: &[Peer]) -> usize
    ensures within { result ≤ length peers.now }
    ensures front { rising_front owner.number (walk owner.number past.number) peers.now ≡ take result peers.now }
{
    let mut last = past;
    for (i, peer) in peers.iter().enumerate() {
        if !is_farther(owner, last, peer.id) {
            return i;
        }
        last = peer.id;
    }
    peers.len()
}

/// The list has one entry only, so none can be dropped.
#[derive(Clone, Copy, Debug, PartialEq, Eq, Error)]
#[error("the list has one entry")]
pub struct Empty;

impl SuccList {
    /// The list of a node that knows no other: itself.
    pub fn alone(me: Peer) -> Self
        ensures { result ≡ record { owner = me.id.number; entries = me ∷ [] } }
    {
        let mut peers = PeerList::new();
        peers.push(me);
        SuccList {
            owner: me.id,
            peers,
        }
    }

    /// The entries, nearest first.
    pub fn entries(&self) -> &[Peer]
        ensures entries { result.now ≡ self.now.entries }
        ensures some { 0 < length self.now.entries }
        ensures few { length self.now.entries ≤ 16 }
        ensures rise { Rises self.now.owner 0 self.now.entries }
    {
        self.peers.as_slice()
    }

    /// The first entry.
    pub fn first(&self) -> Peer
        ensures { slice_get self.now.entries 0 ≡ Some result }
    {
        self.entries()[0]
    }

    /// My list if `head` comes first: `head`, then the
    /// rising prefix of its list, at most r entries.
    pub fn behind_successor(me: Peer, r: usize, head: Peer, list: &SuccList) -> SuccList
        requires low { 0 < r }
        requires high { r ≤ 16 }
        ensures { result ≡ record { owner = me.id.number; entries = behind_successor me.id.number r head list.now.entries } }
    {
        Self::behind_head(me.id, r, head, list.entries())
    }

    /// My list made from my predecessor's in the same way, starting with the first entry of that.
    pub fn behind_predecessor(me: Peer, r: usize, list: &SuccList) -> SuccList
        requires low { 0 < r }
        requires high { r ≤ 16 }
        ensures { result ≡ record { owner = me.id.number; entries = behind_predecessor me.id.number r list.now.entries } }
    {
        let entries = list.entries();
        Self::behind_head(me.id, r, entries[0], &entries[1..])
    }

    /// `head`, then the rising prefix of the rest, at most r entries.
    fn behind_head(owner: Id, r: usize, head: Peer, rest: &[Peer]) -> SuccList
        requires low { 0 < r }
        requires high { r ≤ 16 }
        ensures { result ≡ record { owner = owner.number; entries = behind_successor owner.number r head rest.now } }
    {
        let copied = rising_len(owner, head.id, rest).min(r - 1);
        let mut peers = PeerList::new();
        peers.push(head);
        peers.extend_from_slice(&rest[..copied]);
        SuccList { owner, peers }
    }

    /// Drops the first entry, if there is another.
    pub fn drop_head(&mut self) -> Result<(), Empty>
        ensures variant { IsOk result ↔ (1 < length self.old.entries) }
        ensures ok { OnOk result (self.new ≡ record self.old { entries = drop 1 self.old.entries }) }
        ensures err { OnErr result (self.new ≡ self.old) }
    {
        let entries = self.entries();
        if entries.len() == 1 {
            return Err(Empty);
        }
        let mut rest = PeerList::new();
        rest.extend_from_slice(&entries[1..]);
        self.peers = rest;
        Ok(())
    }
}
