//! Requests of callers and clients: to one node with a worker or without, and to nodes that joined,
//! left, crashed or were rescued.

use super::following::follow_rings;
use chord_store::CappedStore;
use chord_tree_store::TreeStore;
use std::test::Fail;

/// A ring of one node.
const ALONE: &str = "
== 1 3 1 2000 3 a ring with room for one pair
# three callers ask while node 0 has a worker
create A 1 > 0@A
workers 0
caller 4 > Opened
caller 4 > Opened
c0 ask 0 insert a x > added
# a request that was answered Full stays pending
c1 ask 0 insert a y > Wait(Full)
c1 state > floor 0, least Some(1), waits 1
# there is room for it once the pair is removed; a reply that came can be collected
c0 ask 0 remove a x > removed
c1 retry 0 1 > added
c1 collect 1 > added
c0 state > floor 2, least None, waits
c0 calls > mine 2, told
# a request that was sent again is one call
c1 calls > mine 1, told
# the second of two requests may be collected first, and one that was not begun not at all
caller 2 > Opened
c2 begin 0 retrieve a > 1
c2 begin 0 retrieve a > 2
c2 collect 2 > values 1 79
c2 collect 1 > values 1 79
c2 collect 3 > NotBegun
c2 call 0 retrieve a > values 1 79
# a caller learns the calls of a note that it meets
c0 meet c1 > mine 2, told 1#1 added
world c0 c1 > Proved
c0 ask 0 retrieve a > values 1 79
c0 look > Done
# a crashed node may crash again and be ticked, but does not leave, nor answer
crash 0 > Ok(())
crash 0 > Ok(())
leave 0 > Err(NotStaying)
tick 0 > Ok(Quiet)
c0 ask 0 retrieve a > Wait(NoAnswer)

== 1 2 1 2000 3 a note is met
# what a note tells is not told twice
create A 1 > 0@A
caller 1 > Opened
caller 1 > Opened
c1 call 0 insert a x > added
c0 meet c1 > mine 0, told 1#1 added
c0 meet c1 > mine 0, told 1#1 added
c0 call 0 retrieve a > values 1 78

== 1 2 1 2 3 a caller is answered again once there is room
create A 1 > 0@A
caller 1 > Opened
caller 1 > Opened
c0 call 0 insert a x > added
c1 call 0 insert a y > Wait(Full)
c1 again 0 1 > Wait(Full)
c1 again 5 1 > NoSuchNode
c0 call 0 remove a x > removed
c1 again 0 1 > added
# what was answered is not pending, and the floor rises to it
c1 again 0 1 > Idle
c1 state > floor 1, least None, waits

== 1 2 1 2 3 a client is answered again once there is room
create A 1 > 0@A
caller 1 > Opened
client 1 > Opened
c0 call 0 insert a x > added
k0 call 0 insert a y > Wait(Full)
k0 again 0 1 > Wait(Full)
k0 again 5 1 > NoSuchNode
c0 call 0 remove a x > removed
k0 again 0 1 > added
k0 again 0 1 > Idle
k0 state > floor 1, least None, waits

== 1 2 1 2 3 a retry of a caller sends the request of its number
# node 0 has no worker, so it takes in neither request that is begun
create A 2 > 0@A
caller 1 > Opened
caller 2 > Opened
c0 call 0 insert b y > added
c1 begin 0 insert a x > 1
c1 begin 0 retrieve b > 2
c1 again 0 2 > values 1 79
c1 state > floor 0, least Some(1), waits 1
c0 call 0 retrieve a > values 0
c1 again 0 1 > added
c1 state > floor 2, least None, waits

== 1 2 1 2 3 a retry of a client sends the request of its number
create A 2 > 0@A
caller 1 > Opened
client 2 > Opened
c0 call 0 insert b y > added
k0 begin 0 insert a x > 1
k0 begin 0 retrieve b > 2
k0 again 0 2 > values 1 79
k0 state > floor 0, least Some(1), waits 1
c0 call 0 retrieve a > values 0
k0 again 0 1 > added
k0 state > floor 2, least None, waits

== 1 1 1 2000 3 a client asks through inboxes
create A 2 > 0@A
workers 0
client 2 > Opened
k0 ask 0 insert a x > added
k0 begin 0 retrieve a > 2
k0 state > floor 1, least Some(2), waits 2
# its reply comes, also where it came before it was awaited
k0 retry 0 2 > values 1 78
k0 state > floor 2, least None, waits
";

/// A client of a node with a tree, which finds keys by their identifiers; it keeps the last key's if
/// that has at most 64 bytes.
const KEYS: &str = "
== 1 1 1 2000 3 a client asks for keys in turns
create A 0 > 0@A
client 1 > Opened
k0 call 0 insert a x > added
k0 call 0 retrieve a > values 1 78
k0 call 0 insert b x > added
k0 call 0 retrieve b > values 1 78
k0 call 0 insert kkkkkkkkkkkkkkkkkkkkkkkkkkkkkkkkkkkkkkkkkkkkkkkkkkkkkkkkkkkkkkkk x > added
k0 call 0 retrieve kkkkkkkkkkkkkkkkkkkkkkkkkkkkkkkkkkkkkkkkkkkkkkkkkkkkkkkkkkkkkkkk > values 1 78
k0 call 0 insert kkkkkkkkkkkkkkkkkkkkkkkkkkkkkkkkkkkkkkkkkkkkkkkkkkkkkkkkkkkkkkkkk x > added
k0 call 0 retrieve kkkkkkkkkkkkkkkkkkkkkkkkkkkkkkkkkkkkkkkkkkkkkkkkkkkkkkkkkkkkkkkkk > values 1 78
k0 call 0 retrieve c > values 0
k0 call 0 retrieve a > values 1 78
";

/// Requests that are tried once, without a wait, which would last longer than a test may.
const TRIES: &str = "
== 1 2 1000 60000 3 a try is answered at once
# the node has no worker
create A 4 > 0@A
caller 1 > Opened
c0 try 5 insert a x > Begin(NoSuchNode)
c0 try 0 insert a x > added
c0 try-again 0 1 > Idle
# the next one is in an inbox that nobody reads, and no third one is submitted meanwhile
c0 begin 0 insert a y > 2
c0 try 0 retrieve a > Begin(Submit(WindowFull))
c0 try-again 5 1 > Idle
c0 try-again 5 2 > NoSuchNode
c0 try-again 0 2 > added
c0 state > floor 2, least None, waits
# so is that of a client
client 1 > Opened
k0 try 5 insert b x > Begin(NoSuchNode)
k0 try 0 insert b x > added
k0 try-again 0 1 > Idle
k0 begin 0 insert b y > 2
k0 try 0 retrieve b > Begin(Submit(WindowFull))
k0 try-again 5 1 > Idle
k0 try-again 5 2 > NoSuchNode
k0 try-again 0 2 > added
k0 state > floor 2, least None, waits

== 2 2 1000 60000 3 a try waits for nobody
# node 1 takes abc, and crashes while a client tries
create A 4 > 0@A
join C 0 1 > 1@C
rounds 8 2 > Done
workers 0 1
until given 0 > Done
client 1 > Opened
crash-if-safe 1 > Ok(())
k0 try 0 insert abc y > Wait(NoAnswer)
k0 state > floor 0, least Some(1), waits 1
k0 try-again 0 1 > Wait(NoAnswer)
# node 0 answers once it took over what node 1 held
rescue 1 > Ok(())
until retired 1 > Done
k0 try-again 0 1 > added
caller 1 > Opened
c0 call 0 insert abc y > present
";

#[test]
fn requests_are_answered(rt: HostRuntime) -> Result<(), Fail> {
    follow_rings::<CappedStore, _>(&rt, rt.alloc(), ALONE)?;
    follow_rings::<CappedStore, _>(&rt, rt.alloc(), TRIES)?;
    follow_rings::<TreeStore, _>(&rt, rt.alloc(), KEYS)
}
