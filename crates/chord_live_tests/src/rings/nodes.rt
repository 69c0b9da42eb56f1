//! Nodes of a ring that join, leave, crash and are rescued, alone and beside upkeep and requests.

use super::following::follow_rings;
use chord_store::CappedStore;
use std::test::Fail;

/// Identifiers are A, B and C; E is between C and A, and a99a.. between those of `abc` and `eq`,
/// whose first bytes are equal. The identifiers of `b` and `eq` are node 0's then, that of `abc` is
/// node 1's.
const COMING: &str = "
== 4 1 1 10 3 a join is unsettled
create A 1 > 0@A
join C 0 1 > 1@C
tick 1 > Ok(Busy)
tick 0 > Ok(Busy)
crash 1 > Ok(())
# nobody joins by way of a node that crashed, nor behind one
join B 1 1 > Unsettled, back with 0, Ok(Added), Err(Full)
join e0000000000000000000000000000000 0 1 > Unsettled, back with 0, Ok(Added), Err(Full)
# a node joins behind one that lives, and any node once node 0 lists no crashed one
join B 0 1 > 2@B
tick 0 > Ok(Busy)
join e0000000000000000000000000000000 0 1 > 3@e0000000000000000000000000000000

== 2 1 1 1000 3 a node that is needed does not retire
create A 1 > 0@A
join C 0 1 > 1@C
workers 0 1
# node 1 is not ticked while node 0 leaves, so it lists node 0 alone
tick 1 > Ok(Busy)
tick 0 > Ok(Busy)
leave 0 > Ok(())
until emptied 0 > Err(Unsafe)
# node 0 retires once node 1 lists itself behind it
tick 1 > Ok(Busy)
retire 0 > Ok(())

== 2 1 1 10 3 a slot is used again
create A 1 > 0@A
join C 0 1 > 1@C
tick 0 > Ok(Busy)
# a node that leaves has its slot until it is gone
leave 1 > Ok(())
join B 0 1 > NoSlot, back with 0, Ok(Added), Err(Full)
retire 1 > Ok(())
admitted 1 > Yes
# then its slot is the next node's, which has a number of its own; nobody knows number 1 any more
join B 0 1 > 2@B
nodes > 3
admitted 1 > No
phase 1 > None
tick 1 > Err(NoSuchNode)
leave 1 > Err(NoSuchNode)
retire 1 > Err(NoSuchNode)
admitted 2 > Yes
live 2 > Yes
# departures are judged with the seat that node 1 had, and its identifier is not used again
leave 2 > Ok(())
retire 2 > Ok(())
join C 0 1 > IdTaken, back with 0, Ok(Added), Err(Full)
join e0000000000000000000000000000000 0 1 > 3@e0000000000000000000000000000000

== 2 1 1 1000 3 a slot is used again only once no member names its node
create A 1 > 0@A
join C 0 1 > 1@C
# node 0 hears of node 1, and takes it as its first entry
tick 1 > Ok(Busy)
tick 0 > Ok(Busy)
leave 1 > Ok(())
retire 1 > Ok(())
join B 0 1 > NoSlot, back with 0, Ok(Added), Err(Full)
# it drops its first entry, which is its predecessor too
tick 0 > Ok(Busy)
join B 0 1 > NoSlot, back with 0, Ok(Added), Err(Full)
# it forgets that
tick 0 > Ok(Busy)
join B 0 1 > 2@B

== 2 1 1 1000 3 what a node passed on counts after its slot is used again
create A 1 > 0@A
join C 0 1 > 1@C
tick 0 > Ok(Busy)
client 1 > Opened
# node 1 holds nothing yet, so it passes a request on to node 0
k0 call 1 insert abc x > added
leave 1 > Ok(())
retire 1 > Ok(())
past-forwards > 0
join B 0 1 > 2@B
past-forwards > 1

== 2 1 1 1000 3 an item that waits keeps the slot
create A 1 > 0@A
join C 0 1 > 1@C
tick 1 > Ok(Busy)
# node 0 cuts its segment, and then hands a part of it over
tick 0 > Ok(Busy)
tick 0 > Ok(Busy)
leave 1 > Ok(())
retire 1 > Ok(())
# node 1 is gone, and the handover still waits for its answer
join B 0 1 > NoSlot, back with 0, Ok(Added), Err(Full)
# node 1 declines it, and node 0 has it back
tick 1 > Ok(Quiet)
workers 0
until given 0 > Done
rounds 4 1 > Done
join B 0 1 > 2@B
admitted 1 > No

== 2 0 1 10 3 all fingers are found in turn
create A 3 > 0@A
join C 0 1 > 1@C
rounds 256 2 > Done
# each finger of one node leads to the other one, and a round finds one of 128
sight 0 > 0@A Staying Some(1) [1, 0] fingers 128 (C A] 0 gives 1#1 (A C] 0 pairs 0 asks 0 0 0 0 handovers 1 0 0 ticks 256
sight 1 > 1@C Staying Some(0) [0, 1] fingers 128 pairs 0 asks 0 0 0 0 handovers 0 0 0 ticks 256

== 2 1 1 2000 3 a request begins at the node that is named
create A 3 > 0@A
join C 0 2 > 1@C
# where it began at node 0, it would wait in its inbox
workers 1
until held 1 > Done
caller 1 > Opened
c0 call 1 insert a x > added
c0 begin 1 retrieve a > 2
c0 collect 2 > values 1 78
";

const LEAVING: &str = "
== 2 1 20 1000 3 a part is sent again until there is room
create A 3 > 0@A
join C 0 2 > 1@C
workers 0 1
until held 1 > Done
caller 1 > Opened
# the identifiers of `b` and `d` are node 0's, that of `a` is node 1's
c0 call 0 insert a x > added
c0 call 0 insert b x > added
c0 call 0 insert d x > added
leave 0 > Ok(())
until has 0 0 1 > Done
# node 1 answers behind the part, for which it has no room, and node 0 goes on giving it
c0 ask 1 retrieve a > values 1 78
until has 0 0 1 > Done
seen 1 > Staying pairs 1
# it is sent again until it is taken
c0 ask 1 remove a x > removed
until has 0 0 0 > Done
seen 1 > Staying pairs 2

== 2 3 20 1000 3 a node leaves and retires
create A 4 > 0@A
join C 0 4 > 1@C
workers 0 1
rounds 8 2 > Done
caller 1 > Opened
# a call is passed on to the node that holds its key, and so is one that is carried
c0 ask 0 insert abc x > added
c0 call 0 retrieve abc > values 1 78
leave 1 > Ok(())
until retired 1 > Done
# no finger is at a node that retired, and node 0 has what it held
tick 0 > Ok(Busy)
finger 0 1 > None
c0 ask 0 retrieve abc > values 1 78

== 2 1 1 10 3 a gone node works at its ticks
create A 1 > 0@A
join C 0 1 > 1@C
rounds 3 2 > Done
leave 1 > Ok(())
retire 1 > Ok(())
rest 60000 > Yes
work 1 > Ok(())
caller 1 > Opened
c0 begin 1 retrieve abc > 1
# it has nothing to do but for a request that waits for it, which it passes on
sight 1 > 1@C Gone Some(0) [0, 1] fingers 3 pairs 0 asks 0 0 0 0 handovers 0 0 0 ticks 3
tick 1 > Ok(Quiet)
sight 1 > 1@C Gone Some(0) [0, 1] fingers 3 pairs 0 asks 0 1 0 0 handovers 0 0 0 ticks 3

== 2 1 1 10 3 a node that leaves is given nothing
create A 1 > 0@A
join C 0 1 > 1@C
leave 1 > Ok(())
rounds 8 2 > Done
# the identifier of `abc` would be node 1's, if that stayed
holding 0 .abc > Some(Node(0))
holding 1 .abc > None

== 3 1 20 1000 2 what a node leaves goes to one that stays
create A 4 > 0@A
join a99a0000000000000000000000000000 0 4 > 1@a99a0000000000000000000000000000
rounds 8 2 > Done
join C 0 4 > 2@C
rounds 8 3 > Done
lists 1 > list 2 0
workers 0 1
until held 1 > Done
caller 1 > Opened
c0 call 0 insert abc x > added
leave 2 > Ok(())
leave 1 > Ok(())
# node 2, which is behind node 1, leaves too, so node 0 takes over
until has 1 0 0 > Done
holding 0 .abc > Some(Node(0))
";

const CRASHING: &str = "
== 2 3 20 1000 3 a ring without a crashed node
create A 4 > 0@A
join C 0 4 > 1@C
workers 0 1
rounds 8 2 > Done
caller 1 > Opened
c0 ask 0 insert abc x > added
crash 0 > Ok(())
tick 1 > Ok(Busy)
# node 1 answers for what it holds
c0 ask 1 retrieve abc > values 1 78

== 2 3 20 1000 3 a client begins where it was answered
create A 4 > 0@A
join a99a0000000000000000000000000000 0 4 > 1@a99a0000000000000000000000000000
workers 0 1
rounds 8 2 > Done
client 1 > Opened
k0 call 0 insert abc x > added
# a call with a wrong guess is passed on too
k0 call 0 insert eq y > added
k0 call 0 retrieve abc > values 1 78
crash 0 > Ok(())
k0 call 0 retrieve abc > values 1 78
world k0 > Proved

== 2 3 1 1000 3 a client asks no crashed node
# a request is sent once
create A 4 > 0@A
join a99a0000000000000000000000000000 0 4 > 1@a99a0000000000000000000000000000
settings > Settings { slots: 2, callers: 3, successors: 3, tries: 1, wait_ms: 1000 }
workers 0 1
rounds 8 2 > Done
client 1 > Opened
k0 surely 0 insert abc x > added
k0 call 0 retrieve abc > values 1 78
crash 1 > Ok(())
# node 1, which answered, is the guess for `eq`, but node 0 is asked, and node 1 for `abc`
k0 call 0 insert eq y > added
k0 call 0 retrieve abc > Wait(NoAnswer)

== 2 3 1 1000 3 a rescued node hands over
# a rescued node is leaving, and no member
create A 4 > 0@A
join C 0 4 > 1@C
workers 0 1
rounds 8 2 > Done
caller 1 > Opened
c0 surely 0 insert abc x > added
rescue 1 > Err(NotCrashed)
rescue 2 > Err(NoSuchNode)
crash-if-safe 1 > Ok(())
c0 call 0 insert abc y > Wait(NoAnswer)
rescue 1 > Ok(())
rescue 1 > Err(NotCrashed)
leave 1 > Err(NotStaying)
crash-if-safe 1 > Err(NotLive)
crash 1 > Ok(())
premise > Yes
phase 1 > Some(Leaving)
live 1 > No
lists 1 > None
seen 1 > Rescuing pairs 1
retire 1 > Err(NotEmpty)
until retired 1 > Done
seen 1 > Gone pairs 0
c0 again 0 2 > added
c0 call 0 insert abc x > present

== 2 1 3 20 3 nobody is rescued where no node stays
create A 1 > 0@A
join C 0 1 > 1@C
crash 1 > Ok(())
leave 0 > Ok(())
rescue 1 > Err(NoMember)
stop > Done
rescue 1 > Err(Stopped)

== 4 1 1000 60000 3 a request that goes round is lost
create A 1 > 0@A
join B 0 1 > 1@B
rounds 8 4 > Done
join C 0 1 > 2@C
rounds 8 4 > Done
join e0000000000000000000000000000000 0 1 > 3@e0000000000000000000000000000000
rounds 8 4 > Done
crash-if-safe 0 > Ok(())
rounds 8 4 > Done
client 1 > Opened
# none of nodes 1, 2 and 3 holds the key, so they pass a request on in a loop of two nodes at least
k0 try 1 retrieve abc > Wait(NoAnswer)
passed-on 2 9 > Yes
";

/// Departures, upkeep and joins that meet: each is whole, whichever comes first. A list has two
/// entries, and node 0 is at A, or 4 and 31 zeros.
const MEETING: &str = "
== 5 4 3 50 2 of two departures one is refused
# the ring allows both one by one, but the second not behind the first
create A 4 > 0@A
join 50000000000000000000000000000000 0 4 > 1@50000000000000000000000000000000
rounds 4 2 > Done
join 60000000000000000000000000000000 0 4 > 2@60000000000000000000000000000000
rounds 4 3 > Done
join 70000000000000000000000000000000 0 4 > 3@70000000000000000000000000000000
rounds 6 4 > Done
lists 0 > list 1 2
crash-if-safe 1 > Ok(())
crash-if-safe 2 > Err(Unsafe)
safe > Yes
leave 2 > Ok(())
retire 2 > Err(Unsafe)
rounds 6 4 > Done
lists 0 > list 2 3
safe > Yes
crash-if-safe 1 > Err(NotLive)

== 5 4 3 50 2 a crash comes before upkeep
# node 0 lists 1 and 2, of which 1 lists 3, which crashed
create A 4 > 0@A
join 50000000000000000000000000000000 0 4 > 1@50000000000000000000000000000000
rounds 4 2 > Done
join 70000000000000000000000000000000 0 4 > 2@70000000000000000000000000000000
rounds 4 3 > Done
join 60000000000000000000000000000000 0 4 > 3@60000000000000000000000000000000
tick 3 > Ok(Busy)
tick 1 > Ok(Busy)
lists 1 > list 3 2
lists 0 > list 1 2
crash-if-safe 3 > Ok(())
safe > Yes
# node 0 finds 1 dead and goes on with 2
crash-if-safe 1 > Ok(())
tick 0 > Ok(Busy)
rounds 4 3 > Done
safe > Yes

== 5 4 3 50 2 upkeep comes before a crash
create A 4 > 0@A
join 50000000000000000000000000000000 0 4 > 1@50000000000000000000000000000000
rounds 4 2 > Done
join 70000000000000000000000000000000 0 4 > 2@70000000000000000000000000000000
rounds 4 3 > Done
join 60000000000000000000000000000000 0 4 > 3@60000000000000000000000000000000
tick 3 > Ok(Busy)
tick 1 > Ok(Busy)
lists 1 > list 3 2
lists 0 > list 1 2
crash-if-safe 3 > Ok(())
safe > Yes
# node 0 has nobody but 1 then, which is not let go
tick 0 > Ok(Busy)
lists 0 > list 1 3
crash-if-safe 1 > Err(Unsafe)
rounds 4 3 > Done
safe > Yes

== 5 4 3 50 2 a join is behind the nearest
# a node that joins reads the list of the node before it as that is then
create A 4 > 0@A
join 60000000000000000000000000000000 0 4 > 1@60000000000000000000000000000000
rounds 4 2 > Done
join 50000000000000000000000000000000 0 4 > 2@50000000000000000000000000000000
lists 0 > list 1 0
rounds 4 3 > Done
skips 50000000000000000000000000000000 > No
join 58000000000000000000000000000000 0 4 > 3@58000000000000000000000000000000
skips 50000000000000000000000000000000 > No
safe > Yes
";

#[test]
fn nodes_come_leave_crash_and_meet(rt: HostRuntime) -> Result<(), Fail> {
    follow_rings::<CappedStore, _>(&rt, rt.alloc(), COMING)?;
    follow_rings::<CappedStore, _>(&rt, rt.alloc(), LEAVING)?;
    follow_rings::<CappedStore, _>(&rt, rt.alloc(), CRASHING)?;
    follow_rings::<CappedStore, _>(&rt, rt.alloc(), MEETING)
}
