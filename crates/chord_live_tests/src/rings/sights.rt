//! How nodes look to an operator, rounds that find nothing to do, rests between rounds, and the
//! journal.

use super::following::follow_rings;
use crate::checks::check;
use chord_live_ring::Round;
use chord_store::CappedStore;
use std::test::Fail;

const SIGHTS: &str = "
== 2 2 1 5 3 a node that is alone is seen
create A 1 > 0@A
# it is its own successor, knows no predecessor, and holds the whole circle
sight 0 > 0@A Staying None [0] fingers 0 (A A] 0 pairs 0 asks 0 0 0 0 handovers 0 0 0 ticks 0
caller 1 > Opened
caller 1 > Opened
c0 call 0 insert a x > added
c1 call 0 insert a y > Wait(Full)
# a reply that was told is kept, and Full is none
sight 0 > 0@A Staying None [0] fingers 0 (A A] 1 pairs 1 asks 1 0 0 1 handovers 0 0 0 ticks 0
# a page goes up to the node's identifier, ends with its last pair, or at the greatest identifier
page 0 0 > page next A
page 0 40000000000000000000000000000001 > page a=x next 86f7e437faa5a7fce15d1ddcb9eaeaea
page 0 .a+1 > page
page 1 0 > None
# each round finds a finger, and a node alone is its own predecessor
tick 0 > Ok(Busy)
tick 0 > Ok(Busy)
sight 0 > 0@A Staying Some(0) [0] fingers 2 (A A] 1 pairs 1 asks 1 0 0 1 handovers 0 0 0 ticks 2
sight 1 > None
# no ring stands without its only node, which crashes all the same
crash-if-safe 0 > Err(Unsafe)
crash-if-safe 1 > Err(NoSuchNode)
premise > Yes
phase 0 > Some(Staying)
phase 1 > None
crash 0 > Ok(())
live 0 > No
phase 0 > None
premise > No
crash-if-safe 0 > Err(NotLive)
# it holds what it held, but tells no pairs, and is seen as it was
holding 0 A > Some(Node(0))
page 0 A > None
seen 0 > Crashed pairs 1

== 4 1 1 5 3 all links are read at once
create A 1 > 0@A
join a99a0000000000000000000000000000 0 1 > 1@a99a0000000000000000000000000000
rounds 3 3 > Done
join C 0 1 > 2@C
rounds 3 3 > Done
all-links > 0 1 2 of 3
# who is gone has no row, nor who crashed
leave 2 > Ok(())
retire 2 > Ok(())
all-links > 0 1 of 3
tick 0 > Ok(Busy)
tick 1 > Ok(Busy)
crash-if-safe 0 > Ok(())
all-links > 1 of 3

== 2 3 20 1000 3 a handover is seen
create A 4 > 0@A
caller 1 > Opened
c0 call 0 insert abc x > added
join a99a0000000000000000000000000000 0 4 > 1@a99a0000000000000000000000000000
rounds 8 2 > Done
# nobody took in what node 0 gave: it is in its outbox, with `abc`
sight 0 > 0@A Staying Some(1) [1, 0] fingers 8 (a99a0000000000000000000000000000 A] 0 gives 1#1 (A a99a0000000000000000000000000000] 1 pairs 0 asks 1 0 0 0 handovers 1 0 0 ticks 8
sight 1 > 1@a99a0000000000000000000000000000 Staying Some(0) [0, 1] fingers 8 pairs 0 asks 0 0 0 0 handovers 0 0 0 ticks 8
holding 0 .abc > Some(UnderWay { from: 0, to: 1, number: 1 })
holding 1 .abc > None
page 0 .abc > None
page 1 .abc > None
holding 0 A > Some(Node(0))
workers 0 1
until given 0 > Done
caller 1 > Opened
c0 call 0 insert abc y > added
# node 0 told one reply and passed the next request on; node 1 has the replies to both callers
sight 0 > 0@A Staying Some(1) [1, 0] fingers 8 (a99a0000000000000000000000000000 A] 0 pairs 0 asks 1 1 0 0 handovers 1 0 0 ticks 8
sight 1 > 1@a99a0000000000000000000000000000 Staying Some(0) [0, 1] fingers 8 (A a99a0000000000000000000000000000] 2 pairs 2 asks 1 0 0 0 handovers 0 1 0 ticks 8
holding 1 .abc > Some(Node(1))
holding 0 .abc > None
# both pairs of a key are told in a page of one
page 1 .abc > page abc=x abc=y next a9993e364706816aba3e25717850c26c
# a call by a node that crashed begins at the next live one
crash-if-safe 1 > Ok(())
premise > Yes
caller 1 > Opened
c1 call 1 insert eq x > added
";

const RESTS: &str = "
== 2 1 1 10 3 rounds become quiet
# a node that is alone learns one of its 128 fingers in each
create A 1 > 0@A
ticks 0 128 > Some(Ok(Busy))
ticks 0 128 > Some(Ok(Quiet))

== 2 1 1 10 3 who rests is woken by nodes
# each of a node's steps that others should hear of ends one rest
create A 1 > 0@A
settings > Settings { slots: 2, callers: 1, successors: 3, tries: 1, wait_ms: 10 }
nodes > 1
rest 60000 > Yes
rest 1 > No
join C 0 1 > 1@C
nodes > 2
rest 60000 > Yes
leave 1 > Ok(())
rest 60000 > Yes
crash 1 > Ok(())
rest 60000 > Yes
# no time is no rest, nor is there one once the ring is stopped
rest 0 > No
stop > Done
rest 60000 > No
";

/// The bytes follow the RESP specification; `|` is the end of a line in them.
const JOURNAL: &str = "
== 2 1 1 2000 3 changes of all nodes are in the journal
create A 3 > 0@A
join C 0 2 > 1@C
workers 1
until held 1 > Done
caller 1 > Opened
# a change before the journal begins is not in it
c0 call 0 insert a w > added
journal > None
mark > 0
begin-journal > Yes
begin-journal > No
c0 call 0 insert a x > added
mark > 28
# what changes nothing is not in it
c0 call 0 insert a x > present
c0 call 0 retrieve b > values 0
mark > 28
# the commands of both nodes, in their order, and then that of a change by a worker
c0 call 0 insert b y > added
journal > *3|$4|SADD|$1|a|$1|x|*3|$4|SADD|$1|b|$1|y| mark 56
c0 ask 1 remove a x > removed
journal > *3|$4|SREM|$1|a|$1|x| mark 84
mark > 84
";

#[test]
fn nodes_are_seen(rt: HostRuntime) -> Result<(), Fail> {
    follow_rings::<CappedStore, _>(&rt, rt.alloc(), SIGHTS)?;
    follow_rings::<CappedStore, _>(&rt, rt.alloc(), RESTS)?;
    follow_rings::<CappedStore, _>(&rt, rt.alloc(), JOURNAL)
}

#[test]
fn two_rounds_are_quiet_if_both_are(rt: HostRuntime) {
    check!(&rt; Round::Quiet.with(Round::Quiet) == Round::Quiet, "both are");
    check!(&rt; Round::Quiet.with(Round::Busy) == Round::Busy, "the second is not");
    check!(&rt; Round::Busy.with(Round::Quiet) == Round::Busy, "the first is not");
    check!(&rt; Round::Busy.with(Round::Busy) == Round::Busy, "neither is");
}
