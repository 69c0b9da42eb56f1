//! Lists and fingers of a few nodes.

ghost use Rattle.std.specs.Prelude.{◌<◌};

use crate::checks::check;
use chord_ident::Id;
use chord_links::{Empty, Fingers, Links, Peer, SuccList};
use std::test::Fail;

const QUARTER: u128 = 1 << 126;

/// A node whose identifier is `quarters` quarters of the way round the circle.
fn peer(number: u64, quarters: u128) -> Peer
    requires { quarters < 4 }
{
    Peer {
        number,
        id: Id::new(quarters * QUARTER),
    }
}

#[test]
fn lists_rise_and_stop_at_their_owner(rt: HostRuntime) {
    let a = peer(0, 1);
    let b = peer(2, 2);
    let c = peer(1, 3);
    let only_a = SuccList::alone(a);
    check!(&rt; only_a.entries() == [a].as_slice());
    let from_c = SuccList::behind_successor(c, 3, a, &only_a);
    check!(&rt; from_c.entries() == [a].as_slice());
    let from_a = SuccList::behind_successor(a, 3, c, &only_a);
    check!(&rt; from_a.entries() == [c, a].as_slice());
    check!(&rt; from_a.first() == c);
    let from_b = SuccList::behind_predecessor(b, 3, &from_a);
    check!(&rt; from_b.entries() == [c, a].as_slice());
    let longer = SuccList::behind_successor(a, 3, b, &from_b);
    check!(&rt; longer.entries() == [b, c, a].as_slice());
    let cut = SuccList::behind_successor(a, 2, b, &from_b);
    check!(&rt; cut.entries() == [b, c].as_slice());
    let not_farther = SuccList::behind_successor(a, 3, c, &longer);
    check!(&rt; not_farther.entries() == [c].as_slice());
    let itself = SuccList::behind_successor(a, 3, a, &longer);
    check!(&rt; itself.entries() == [a].as_slice());
}

#[test]
fn drops_all_heads_but_the_last(rt: HostRuntime) -> Result<(), Fail> {
    let a = peer(0, 1);
    let c = peer(1, 3);
    let mut list = SuccList::behind_successor(a, 3, c, &SuccList::alone(a));
    check!(&rt; list.drop_head() == Ok(()));
    check!(&rt; list == SuccList::alone(a));
    check!(&rt; list.drop_head() == Err(Empty));
    let text = format!(in rt.alloc(); "{Empty}")?;
    check!(&rt; text.as_str() == "the list has one entry");
    check!(&rt; list.entries() == [a].as_slice());
    Ok(())
}

#[test]
fn fingers_precede(rt: HostRuntime) {
    let a = peer(0, 1);
    let b = peer(2, 2);
    let c = peer(1, 3);
    let mut fingers = Fingers::none(a);
    check!(&rt; fingers.start(1) == Id::new(QUARTER + 1));
    check!(&rt; fingers.start(127) == b.id);
    check!(&rt; fingers.start(128) == c.id);
    check!(&rt; fingers.get(128) == None);
    check!(&rt; fingers.closest_preceding(Id::new(0)) == a);
    fingers.set(127, b);
    fingers.set(128, c);
    check!(&rt; fingers.get(128) == Some(c));
    check!(&rt; fingers.get(1) == None);
    check!(&rt; fingers.closest_preceding(Id::new(0)) == c);
    check!(&rt; fingers.closest_preceding(c.id) == b);
    check!(&rt; fingers.closest_preceding(b.id) == a);
    check!(&rt; fingers.closest_preceding(a.id) == c);
}

#[test]
fn links_change_part_by_part(rt: HostRuntime) {
    let a = peer(0, 1);
    let c = peer(1, 3);
    let alone = Links::alone(a, 2);
    check!(&rt; alone.list() == &SuccList::alone(a));
    check!(&rt; alone.predecessor() == None);
    let mut links = alone;
    links.set_predecessor(Some(c));
    links.set_list(SuccList::behind_successor(a, 2, c, alone.list()));
    links.set_finger(128, c);
    check!(&rt; links.me() == a);
    check!(&rt; links.r() == 2);
    check!(&rt; links.predecessor() == Some(c));
    check!(&rt; links.first() == c);
    check!(&rt; links.list().entries() == [c, a].as_slice());
    check!(&rt; links.fingers().get(128) == Some(c));
    check!(&rt; links != alone);
}
