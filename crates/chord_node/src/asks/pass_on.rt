//! Calls for keys that the node does not hold.
ghost use Rattle.std.specs.Prelude.{◌≡◌, IfOk, OnErr};
ghost use Rattle.chord_node.specs.Asked.{TakesMemory};
ghost use Rattle.chord_node.specs.declared.asks.answered.Answered.{Answered as AnsweredType};
ghost use Rattle.chord_node.specs.Passed.{peer_of, PassesOn};
ghost use Rattle.chord_segment.specs.Segment.{id_of};

use crate::asks::answered::Answered;
use chord_caller::Ask;
use chord_ident::Id;
use chord_links::{Links, Peer};
use chord_route::{Hop, next_hop};
use std::alloc::AllocError;

/// The node that a hop goes to.
pub(crate) fn peer_of_hop(hop: Hop) -> Peer
    ensures { result ≡ peer_of hop }
{
    match hop {
        Hop::Last(peer) => peer,
        Hop::Near(peer) => peer,
    }
}

/// Passes the call on to the next hop towards its key, with one hop less. It is dropped if no hops
/// are left or the node knows no other.
pub(crate) fn pass_on(links: &Links, ask: &Ask, target: Id) -> Result<Answered, AllocError>
    requires { target.number ≡ id_of ask.now.request }
    ensures passed { IfOk result (λ answered. PassesOn links.now ask.now answered) }
    ensures memory { OnErr result ((answered : AnsweredType) × PassesOn links.now ask.now answered × TakesMemory answered) }
{
    let peer = peer_of_hop(next_hop(links, target));
    if ask.hops == 0 || peer.number == links.me().number {
        return Ok(Answered::Dropped);
    }
    let Ok(request) = ask.request.try_copy() else {
        return Err(AllocError);
    };
    let passed = Ask {
        caller: ask.caller,
        number: ask.number,
        floor: ask.floor,
        request,
        hops: ask.hops - 1,
    };
    Ok(Answered::Forward(peer.number, passed))
}
