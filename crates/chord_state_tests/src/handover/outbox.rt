//! Items of the outbox, and parts and payloads by themselves.

use super::giving::Giving;
use chord_testkit::follow;
use std::test::Fail;

pub const SCRIPTS: &str = "
== items are shown; an item without pairs has one part; there is no further part or item
# the first item for a node has number 1
give > 1; next 2 1#1 (A A]
# an item's payload is what was given, and so is its copy
copy 1 > (A A] with 0
# an item without pairs has one part, with its segment
part 1 1 > 3#1 to 1 1/1 (A A]
# there is no part behind the last
part 1 2 > NoPart
# an item that was not given has no part
part 2 1 > NoPart

== items stay until got
give > 1; next 2 1#1 (A A]
# an item leaves the outbox when its receiver took it
got 1 > (A A] with 0; next 2
# a Got that comes again finds no item
got 1 > NoItem

== a declined item comes back
give > 1; next 2 1#1 (A A]
# the second item for a node has number 2
give > 2; next 3 1#1 (A A] 1#2 (A A]
# a declined item comes back, and the others stay
declined 2 > (A A] with 0; next 3 1#1 (A A]

== an item comes back whole
give-two > 1; next 2 1#1 (A A]
give-two > 2; next 3 1#1 (A A] 1#2 (A A]
# a copy has the segment with its kept call, and the pairs
copy 1 > (A A], 7:1, 7#2 abc+x with 2
# so has what the receiver took, and what it declined
got 1 > (A A], 7:1, 7#2 abc+x with 2; next 3 1#2 (A A]
declined 2 > (A A], 7:1, 7#2 abc+x with 2; next 3

== reserving room keeps the items
give > 1; next 2 1#1 (A A]
reserve > Reserved

== parts are compared
# a part equals its copy, and one made alike
copied 0#1 1/2 0..64 > Yes
same 0#1 1/2 0..64 0#1 1/2 0..64 > Yes
# a part does not equal one with fewer pairs
same 0#1 1/2 0..64 0#1 1/2 0..63 > No
# or with other pairs
same 0#1 1/2 0..64 0#1 1/2 1..65 > No
# or with another place
same 0#1 1/2 0..64 0#1 2/2 0..64 > No
# or with more parts
same 0#1 1/2 0..64 0#1 1/3 0..64 > No
# or with another handover's number
same 0#1 1/2 0..64 0#2 1/2 0..64 > No
# or with another giver
same 0#1 1/2 0..64 2#1 1/2 0..64 > No

== the only part of an empty payload has its segment
only 0#1 to 1 > 0#1 to 1 1/1 (A A]

== pairs go 64 to a part
chunks 0 > 1: 0 0 0
chunks 64 > 1: 64 0 0
chunks 65 > 2: 64 1 0

== a part begins behind the one before: the second part has the 65th pair
last 65 > Yes
";

#[test]
fn items_are_given_in_parts(rt: HostRuntime) -> Result<(), Fail> {
    follow::<Giving>(rt.alloc(), SCRIPTS)
}
