//! What a node cuts, merges, gives, takes and takes back, until it leaves.

use super::acting::Acting;
use chord_testkit::follow;
use std::test::Fail;

pub const SCRIPTS: &str = "
== a cut makes two segments and a merge one
found 1 > 0 Staying; Staying (A A]
# a cut makes two segments, and the part behind the point gets the next index
cut 0 B > Ok; Staying (A B] (B A]
# a merge makes one segment of two neighbours
merge 0 1 > Ok; Staying (A A]

== a refused cut changes nothing
found 1 > 0 Staying; Staying (A A]
# a segment that is not held is not cut
cut 1 B > NoSegment
# a segment is not cut at its end
cut 0 A > NotInside

== a refused merge changes nothing
found 1 > 0 Staying; Staying (A A]
# the circle is cut at C, and its first half at B
cut 0 C > Ok; Staying (A C] (C A]
cut 0 B > Ok; Staying (A B] (B C] (C A]
# a segment is not merged with itself
merge 0 0 > NoSegment
# a segment is not merged with one that is not held
merge 0 3 > NoSegment
# a segment is not merged with one that does not begin where it ends
merge 0 2 > NotAdjacent

== no call is kept twice
found 2 > 0 Staying; Staying (A A]
cut 0 C > Ok; Staying (A C] (C A]
# the call is executed for a key of the first segment
ask 1 insert abc x > Told 0#1 added, executed 0#1 added; Staying (A C] (C A] pairs 1
# the call is executed for a key of the second segment
ask 1 insert b x > Told 0#1 added, executed 0#1 added; Staying (A C] (C A] pairs 2
# segments that keep the same call are not merged
merge 0 1 > Twice

== gives no segment that it does not hold
found 1 > 0 Staying; Staying (A A]
# a segment that is not held may not be given, and is not given
may-give 1 1 > NoSegment
give 1 1 > NoSegment

== gives what it holds
found 1 > 0 Staying; Staying (A A]
# a segment that is held may be given
may-give 0 1 > Ok
# the whole circle has each identifier
find 0 > Yes
# a handover without pairs has one part, and is kept in the outbox
give 0 1 > 0#1 to 1 1/1 (A A]; Staying out 1#1 (A A] 0
# what is given is not held
find 0 > No

== what is given is kept; a part goes again; no other part goes again
found 1 > 0 Staying; Staying (A A]
# x is added under `abc`
ask 1 insert abc x > Told 0#1 added, executed 0#1 added; Staying (A A] pairs 1
# the circle is cut at C
cut 0 C > Ok; Staying (A C] (C A] pairs 1
# what is given is kept in the outbox, once
give 0 1 > 0#1 to 1 1/1 (A C], 0#1 abc+x with abc=x; Staying (C A] out 1#1 (A C] 1
# there is no part 0
resend 1#1 0 > NoPart
# there is no part behind the last
resend 1#1 2 > NoPart
# a handover that was not given has no part
resend 1#2 1 > NoPart
# a node that was given nothing gets no part
resend 2#1 1 > NoPart
# a part of an item of the outbox is sent again as it was, with its segment and its pair
resend 1#1 1 > 0#1 to 1 1/1 (A C], 0#1 abc+x with abc=x

== what is declined is held again; a node tells what it holds and gives
found 1 > 0 Staying; Staying (A A]
ask 1 insert abc x > Told 0#1 added, executed 0#1 added; Staying (A A] pairs 1
cut 0 C > Ok; Staying (A C] (C A] pairs 1
# the pair of the segment that it gives is in the outbox
give 0 1 > 0#1 to 1 1/1 (A C], 0#1 abc+x with abc=x; Staying (C A] out 1#1 (A C] 1
segments > segments (C A]
# a Declined for what was not given changes nothing
declined 0#2 to 1 > Unknown
# what is declined is held again, and leaves the outbox
declined 0#1 to 1 > Held; Staying (C A] (A C] pairs 1
segments > segments (C A] (A C], 0#1 abc+x

== a full store takes nothing back
found 1 > 0 Staying; Staying (A A]
ask 1 insert abc x > Told 0#1 added, executed 0#1 added; Staying (A A] pairs 1
cut 0 C > Ok; Staying (A C] (C A] pairs 1
give 0 1 > 0#1 to 1 1/1 (A C], 0#1 abc+x with abc=x; Staying (C A] out 1#1 (A C] 1
# the store has room for x under `b` once x under `abc` was given away
ask 2 insert b x > Told 0#2 added, executed 0#2 added; Staying (C A] pairs 1 out 1#1 (A C] 1
# if the store is full, a declined item stays in the outbox
declined 0#1 to 1 > Full

== what is held again meets nothing: a handover made by hand overlaps what was given away
found 1 > 0 Staying; Staying (A A]
ask 1 insert abc x > Told 0#1 added, executed 0#1 added; Staying (A A] pairs 1
cut 0 C > Ok; Staying (A C] (C A] pairs 1
give 0 1 > 0#1 to 1 1/1 (A C], 0#1 abc+x with abc=x; Staying (C A] out 1#1 (A C] 1
# a handover of what was given away is taken
take 2#1 to 0 1/1 (A B] > Got; Staying (C A] (A B] out 1#1 (A C] 1 took 0 0 1
# a declined item that meets what is held stays in the outbox
declined 0#1 to 1 > Clash

== a store comes back
# it is empty, has room for a pair, and has its limit
into-store a x > count 0, Ok(Added), Err(Full)

== takes what is given once
# the next handover of its giver is taken and held
take-x > Got; Staying (A C] pairs 1 took 1 0 0
# a handover that comes again is answered Got and not taken again
take-x > Got

== a full store takes no handover
newborn 0 1@C > 1 Staying
# a store with too little room takes nothing, however often the part comes
take-x > Full
take-x > Full

== handovers come in order
# a handover that is not the next one of its giver is early
take 0#2 to 1 1/1 (B C] > Early
# the first handover is taken
take 0#1 to 1 1/1 (A B] > Got; Staying (A B] took 1 0 0
# the second handover is taken once the first was
take 0#2 to 1 1/1 (B C] > Got; Staying (A B] (B C] took 2 0 0

== a handover meets nothing held
found 1 > 0 Staying; Staying (A A]
# a handover of what the node holds is not taken
take 1#1 to 0 1/1 (A B] > Clash

== parts that do not fit are not taken
# the first part of two is buffered
take 0#1 to 1 1/2 (A B] > Part
# a part of a handover with another count does not fit
take 0#1 to 1 2/3 (A B] > Clash
# a last part of two without pairs does not fit
take 0#1 to 1 2/2 (A B] > Clash
# the buffered part stays, so an only part does not fit
take 0#1 to 1 1/1 (A B] > Clash

== leaves once
found 1 > 0 Staying; Staying (A A]
# a staying node does not retire
retire > NotLeaving
# a staying node begins to leave
leave > Ok; Leaving (A A]
# a leaving node does not begin to leave, and says that it does not stay
leave > the node is not staying

== holds nothing when it retires
found 1 > 0 Staying; Staying (A A]
leave > Ok; Leaving (A A]
# a node that holds a segment does not retire
retire > NotEmpty

== a gone node answers parts
# node 1 takes a handover
take 0#1 to 1 1/1 (A B] > Got; Staying (A B] took 1 0 0
# it gives it on
give 0 2 > 1#1 to 2 1/1 (A B]; Staying out 2#1 (A B] 0 took 1 0 0
# a Got frees it
got 1#1 to 2 > Freed; Staying took 1 0 0
# it begins to leave, and retires
leave > Ok; Leaving took 1 0 0
retire > Ok; Gone took 1 0 0
# a gone node answers Got to what it took
take 0#1 to 1 1/1 (A B] > Got
# a gone node declines the next handover, and a later one too
take 0#2 to 1 1/1 (B C] > Declined
take 0#3 to 1 1/1 (B C] > Declined
";

#[test]
fn segments_are_given_and_taken(rt: HostRuntime) -> Result<(), Fail> {
    follow::<Acting<true>>(rt.alloc(), SCRIPTS)
}
