//! Lookups: following the hops from node to node.

ghost use Rattle.std.specs.Prelude.{◌≡◌, ℕ, ◌*◌, ◌≤◌, List, Option, IfOk, IfErr, IsOkAnd};
ghost use Rattle.chord_links.specs.declared.peer.Peer.{Peer};
ghost use Rattle.chord_links.specs.NodeLinks.{NodeLinks, first_entry};
ghost use Rattle.chord_route.specs.IdealRing.{IsSuccessor, IsPredecessor};
ghost use Rattle.chord_route.specs.Network.{ReadsSettledRing, ReadsIdealRing};
ghost use Rattle.chord_route.specs.Course.{ComesTo, EndsAt, RefusesLookup};

use crate::hop::{Hop, next_hop};
use chord_ident::Id;
use chord_links::{Links, Peer};
use thiserror::Error;

/// Reads the links of nodes.
pub trait LinkReader {
    /// The answers that may be given for a node's number.
    ghost answers: { Self → ℕ → Option NodeLinks → Type 0 };

    /// The number that all nodes' numbers are below.
    ghost slot_count: { Self → ℕ };

    /// The links of the node of this number, if there is one.
    fn links(&self, number: u64) -> Option<Links>
        ensures { answers self.now number result };

    /// A number that all nodes' numbers are below.
    fn slots(&self) -> u64
        ensures { result ≡ slot_count self.now };
}

/// Why a lookup found nothing.
#[derive(Clone, Copy, Debug, PartialEq, Eq, Error)]
pub enum LookupFault {
    #[error("no node has the number")]
    NoSuchNode,
    #[error("the links led to no end")]
    Unsettled,
}

/// The links of the last node before the target, by the
/// hops from node `from`: at most twice `slots` of them.
fn look_up<R: LinkReader>(reader: &R, from: u64, target: Id) -> Result<Links, LookupFault>
    ensures found { IfOk result (λ last.
        EndsAt (R.answers reader.now) from target.number (2 * R.slot_count reader.now) last) }
    ensures refused { IfErr result
        (RefusesLookup (R.answers reader.now) from target.number (2 * R.slot_count reader.now)) }
    ensures on_settled_ring { (ring : List Peer) →
        ReadsSettledRing (R.answers reader.now) (R.slot_count reader.now) from ring →
        IsOkAnd result (λ last. IsPredecessor ring target.number last.me
        × IsSuccessor ring target.number (first_entry last)) }
{
    let Some(mut here) = reader.links(from) else {
        return Err(LookupFault::NoSuchNode);
    };
    for forwards in 0..2 * u128::from(reader.slots()) {
        match next_hop(&here, target) {
            Hop::Last(_) => return Ok(here),
            Hop::Near(peer) => match reader.links(peer.number) {
                Some(links) => here = links,
                None => return Err(LookupFault::Unsettled),
            },
        }
    }
    Err(LookupFault::Unsettled)
}

/// The node that the target belongs to, by a lookup from node `from`.
pub fn find_successor<R: LinkReader>(reader: &R, from: u64, target: Id) -> Result<Peer, LookupFault>
    ensures found { IfOk result (λ node. (last : NodeLinks) × (node ≡ first_entry last)
        × EndsAt (R.answers reader.now) from target.number (2 * R.slot_count reader.now) last) }
    ensures refused { IfErr result
        (RefusesLookup (R.answers reader.now) from target.number (2 * R.slot_count reader.now)) }
    ensures on_settled_ring { (ring : List Peer) →
        ReadsSettledRing (R.answers reader.now) (R.slot_count reader.now) from ring →
        IsOkAnd result (IsSuccessor ring target.number) }
    ensures on_ideal_ring { (ring : List Peer) →
        ReadsIdealRing (R.answers reader.now) (R.slot_count reader.now) from ring →
        IsOkAnd result (IsSuccessor ring target.number) }
    ensures few_forwards { (ring : List Peer) →
        ReadsIdealRing (R.answers reader.now) (R.slot_count reader.now) from ring →
        (n : ℕ) (here : NodeLinks) → ComesTo (R.answers reader.now) from target.number n here →
        n ≤ 128 }
{
    Ok(look_up(reader, from, target)?.first())
}

/// The last node before the target, by a lookup from node `from`.
pub fn find_predecessor<R: LinkReader>(
    reader: &R,
    from: u64,
    target: Id,
) -> Result<Peer, LookupFault>
    ensures found { IfOk result (λ node. (last : NodeLinks) × (node ≡ last.me)
        × EndsAt (R.answers reader.now) from target.number (2 * R.slot_count reader.now) last) }
    ensures refused { IfErr result
        (RefusesLookup (R.answers reader.now) from target.number (2 * R.slot_count reader.now)) }
    ensures on_settled_ring { (ring : List Peer) →
        ReadsSettledRing (R.answers reader.now) (R.slot_count reader.now) from ring →
        IsOkAnd result (IsPredecessor ring target.number) }
    ensures on_ideal_ring { (ring : List Peer) →
        ReadsIdealRing (R.answers reader.now) (R.slot_count reader.now) from ring →
        IsOkAnd result (IsPredecessor ring target.number) }
{
    Ok(look_up(reader, from, target)?.me())
}
