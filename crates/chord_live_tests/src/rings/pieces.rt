//! A large segment, which goes over in pieces. The identifier before A leaves node 0 no other one.

use super::following::follow_rings;
use super::looking::sight_of;
use chord_live_ring::Ring;
use chord_sight::NodeSight;
use chord_store::EntryStore;
use chord_table::Naming;
use chord_testkit::{SpanText, Text};
use chord_tree_store::TreeStore;
use std::alloc::Global;
use std::sync::Wait;
use std::test::Fail;
use std::thread;
use std::time::{Clock, Duration};

const PIECES: &str = "
== 2 1 20 1000 3 a segment goes over in pieces
create A 0 > 0@A
caller 1 > Opened
c0 fill 0 1036 > added
join 3fffffffffffffffffffffffffffffff 0 0 > 1@3fffffffffffffffffffffffffffffff
workers 0 1
# a piece has 257 to 512 pairs, and the last may have fewer
go-over 1036 > (A 3fffffffffffffffffffffffffffffff], 0 pairs left, 3 to 5 given and taken

== 2 1 20 1000 3 one handover to a node is under way at a time
create A 0 > 0@A
caller 1 > Opened
c0 fill 0 1036 > added
join 3fffffffffffffffffffffffffffffff 0 0 > 1@3fffffffffffffffffffffffffffffff
rounds 16 2 > Done
# nobody takes in the first piece, so the rest, of more than 512 pairs, stays where it is
holding 0 40000000000000000000000000000001 > Some(UnderWay { from: 0, to: 1, number: 1 })
holding 0 3fffffffffffffffffffffffffffffff > Some(Node(0))
";

#[test]
fn a_segment_goes_over_in_pieces(rt: HostRuntime) -> Result<(), Fail> {
    follow_rings::<TreeStore, _>(&rt, rt.alloc(), PIECES)
}

/// Ticks nodes 0 and 1 until node 1 has this number of pairs in one segment. Tells the segment, how
/// many pairs node 0 has left, and how many handovers there were; or what is wrong with a piece.
pub fn go_over<J: Naming, S: EntryStore, R: Wait + Clock>(
    rt: &R,
    alloc: Global,
    ring: &Ring<J, S>,
    pairs: u64,
) -> Text {
    for _ in 0..10_000u64 {
        let _ = ring.tick(rt, 0).is_ok();
        let _ = ring.tick(rt, 1).is_ok();
        let Some(zero) = sight_of(rt, alloc, ring, 0) else {
            return Text::of("no node 0");
        };
        let Some(one) = sight_of(rt, alloc, ring, 1) else {
            drop(zero);
            return Text::of("no node 1");
        };
        let wrong = wrong_piece(&zero);
        let over = over(&zero, &one, pairs);
        drop(one);
        drop(zero);
        if let Some(told) = wrong.or(over) {
            return told;
        }
        thread::sleep(rt, Duration::from_millis(1));
    }
    Text::of("never")
}

/// What node 0 hands over at a time is one piece at most, of up to 512 pairs, as each identifier has
/// one.
fn wrong_piece(zero: &NodeSight) -> Option<Text> {
    match zero.outbox.as_slice() {
        [] => None,
        [piece] if piece.pairs <= 512 => None,
        pieces => Some(Text::of(format_args!("pieces {pieces:?}"))),
    }
}

/// What is told once node 1 has all pairs in one segment of all but one point.
fn over(zero: &NodeSight, one: &NodeSight, pairs: u64) -> Option<Text> {
    let [segment] = one.segments.as_slice() else {
        return None;
    };
    let after = segment.span.after.number;
    if one.pairs != pairs || segment.span.upto.number.wrapping_add(1) != after {
        return None;
    }
    let span = SpanText(segment.span);
    let left = zero.pairs;
    let given = zero.counts.handovers.given;
    let taken = one.counts.handovers.taken;
    let are_few = (3..=5).contains(&given) && (3..=5).contains(&taken);
    Some(if are_few {
        Text::of(format_args!("{span}, {left} pairs left, 3 to 5 given and taken"))
    } else {
        Text::of(format_args!("{span}, {left} pairs left, {given} given, {taken} taken"))
    })
}
