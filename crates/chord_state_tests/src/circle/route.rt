//! A ring of three nodes.

ghost use Rattle.std.specs.Prelude.{◌<◌};

use crate::checks::check;
use chord_ident::Id;
use chord_links::{Links, Peer, SuccList};
use chord_route::{Hop, LinkReader, LookupFault, find_predecessor, find_successor, next_hop};

const EIGHTH: u128 = 1 << 125;

/// The links of a ring, by number.
#[derive(Drop)]
struct Table {
    links: [Option<Links>; 3],
}

impl LinkReader for Table {
    ghost answers = { λ _ _ _. Unit {0} };

    ghost slot_count = { λ _. 3 };

    fn links(&self, number: u64) -> Option<Links> {
        if number < 3 {
            self.links[number as usize]
        } else {
            None
        }
    }

    fn slots(&self) -> u64 {
        3
    }
}

/// A node whose identifier is `eighths` eighths of the way round the circle.
fn peer(number: u64, eighths: u128) -> Peer
    requires { eighths < 8 }
{
    Peer {
        number,
        id: Id::new(eighths * EIGHTH),
    }
}

/// The links of a node whose fingers up to 125 are its first entry.
fn links_of(me: Peer, first: Peer, far: [Peer; 3]) -> Links {
    let mut links = Links::alone(me, 2);
    let list = SuccList::behind_successor(me, links.r(), first, links.list());
    links.set_list(list);
    for finger in 1..126 {
        links.set_finger(finger, first);
    }
    links.set_finger(126, far[0]);
    links.set_finger(127, far[1]);
    links.set_finger(128, far[2]);
    links
}

#[test]
fn looks_up_on_an_ideal_ring_of_three(rt: HostRuntime) {
    let a = peer(0, 0);
    let b = peer(1, 1);
    let c = peer(2, 3);
    let at_a = links_of(a, b, [b, c, a]);
    let at_b = links_of(b, c, [c, c, a]);
    let at_c = links_of(c, a, [a, a, a]);
    let key = Id::new(6 * EIGHTH);
    check!(&rt; next_hop(&at_a, key) == Hop::Near(c));
    check!(&rt; next_hop(&at_c, key) == Hop::Last(a));
    let whole = Table {
        links: [Some(at_a), Some(at_b), Some(at_c)],
    };
    check!(&rt; find_successor(&whole, 0, key) == Ok(a));
    check!(&rt; find_predecessor(&whole, 0, key) == Ok(c));
    check!(&rt; find_successor(&whole, 3, key) == Err(LookupFault::NoSuchNode));
    let broken = Table {
        links: [Some(at_a), Some(at_b), None],
    };
    check!(&rt; find_successor(&broken, 0, key) == Err(LookupFault::Unsettled));
    check!(&rt; find_predecessor(&broken, 2, key) == Err(LookupFault::NoSuchNode));
}

#[test]
fn a_node_alone_is_near_itself(rt: HostRuntime) {
    let a = peer(0, 4);
    let alone = Links::alone(a, 3);
    check!(&rt; next_hop(&alone, Id::new(EIGHTH)) == Hop::Last(a));
    let table = Table {
        links: [Some(alone), None, None],
    };
    check!(&rt; find_successor(&table, 0, a.id) == Ok(a));
    check!(&rt; find_predecessor(&table, 0, a.id) == Ok(a));
}
