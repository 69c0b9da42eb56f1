//! The next hop.

ghost use Rattle.std.specs.Prelude.{List};
ghost use Rattle.chord_links.specs.declared.peer.Peer.{Peer};
ghost use Rattle.chord_route.specs.IdealRing.{IsRing, IsIdeal};
ghost use Rattle.chord_route.specs.Hops.{IsNextHop, BringsNearer};

use chord_ident::{Id, Span};
use chord_links::{Links, Peer};

/// Where a lookup goes next.
#[derive(Clone, Copy, Debug, PartialEq, Eq)]
pub enum Hop {
    /// The target belongs to this node.
    Last(Peer),
    /// This node is nearer to the target.
    Near(Peer),
}

/// The next hop from a node with these links.
pub fn next_hop(links: &Links, target: Id) -> Hop
    ensures rule { IsNextHop links.now target.number result }
    ensures on_ideal_ring { (ring : List Peer) → IsRing ring → IsIdeal ring links.now →
        BringsNearer ring links.now target.number result }
{
    let me = links.me();
    let first = links.first();
    if Span::new(me.id, first.id).contains(target) {
        return Hop::Last(first);
    }
    let nearest = links.fingers().closest_preceding(target);
    if nearest == me {
        Hop::Near(first)
    } else {
        Hop::Near(nearest)
    }
}
