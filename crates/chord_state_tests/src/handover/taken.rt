//! What a receiver took and buffered, and what its parts make together.

use super::taking::Taking;
use chord_testkit::follow;
use std::test::Fail;

pub const SCRIPTS: &str = "
== numbers are taken in order
# the second handover is early before the first was taken
judge 0#2 > Early
# the first handover is the next at first
judge 0#1 > Next
mark 0 > Marked; taken 1 0 0
# a handover that was taken comes again
judge 0#1 > Again
# the second handover is the next once the first was taken
judge 0#2 > Next

== two parts make it whole with all pairs
# the second of two parts makes no payload alone
! gather 0#1 2/2 64..65 > More
# a part of the next handover is buffered
buffer 0#1 2/2 64..65 > Buffered
# a part makes no more with itself
! gather 0#1 2/2 64..65 > More
# a part that is buffered may be buffered again
! buffer 0#1 2/2 64..65 > Buffered
# the first part and the buffered second one make the payload, with all pairs in order
gather 0#1 1/2 0..64 > Whole 65
# the first part is buffered too
buffer 0#1 1/2 0..64 > Buffered
# the payload is the same, whichever part comes last
gather 0#1 2/2 64..65 > Whole 65

== a part of a handover that was taken is not next
mark 0 > Marked; taken 1 0 0
# a part of a handover that was taken is not of the next
! gather 0#1 2/2 64..65 > NotNext

== parts that do not fit make nothing
# the first of two parts makes no payload alone
! gather 0#1 1/2 0..64 > More
buffer 0#1 1/2 0..64 > Buffered
# a part of a handover with another count does not fit
! gather 0#1 2/3 64..65 > Unfit
# a second part whose pairs are not behind those of the first does not fit
! gather 0#1 2/2 0..1 > Unfit
# a last part of two without pairs does not fit
! gather 0#1 2/2 64..64 > Unfit
# an only part does not fit
! gather 0#1 1/1 0..0 > Unfit

== a set of a payload has at most a thousand values
# fifteen parts of 64 pairs under one key are buffered
buffer 0#1 1/16 0..64 > Buffered
buffer 0#1 2/16 64..128 > Buffered
buffer 0#1 3/16 128..192 > Buffered
buffer 0#1 4/16 192..256 > Buffered
buffer 0#1 5/16 256..320 > Buffered
buffer 0#1 6/16 320..384 > Buffered
buffer 0#1 7/16 384..448 > Buffered
buffer 0#1 8/16 448..512 > Buffered
buffer 0#1 9/16 512..576 > Buffered
buffer 0#1 10/16 576..640 > Buffered
buffer 0#1 11/16 640..704 > Buffered
buffer 0#1 12/16 704..768 > Buffered
buffer 0#1 13/16 768..832 > Buffered
buffer 0#1 14/16 832..896 > Buffered
buffer 0#1 15/16 896..960 > Buffered
# a set of a payload may have a thousand values
gather 0#1 16/16 960..1000 > Whole 1000
# a set of a payload has no more than a thousand values
! gather 0#1 16/16 960..1001 > Unfit

== parts are buffered until they are forgotten
buffer 0#1 2/2 64..65 > Buffered
gather 0#1 1/2 0..64 > Whole 65
# buffered parts can be dropped
forget > Forgotten
# what was dropped is not there for the first part
! gather 0#1 1/2 0..64 > More
# an only part needs no buffered one
gather 0#1 1/1 0..0 > Whole 0

== what was taken is not buffered
# parts of several givers are buffered
buffer 0#1 2/2 64..65 > Buffered
buffer 2#1 2/2 64..65 > Buffered
mark 0 > Marked; taken 1 0 0
# the buffered parts of a handover that was taken are dropped
! gather 0#2 1/2 0..64 > More
# the buffered parts of other givers stay
gather 2#1 1/2 0..64 > Whole 65
# handovers of several givers are taken
mark 2 > Marked; taken 1 0 1

== parts of no payload are unfit and need no memory
buffer 0#1 1/2 0..64 > Buffered
# parts with the same pairs are unfit, whether or not there is memory
! gather 0#1 2/2 0..64 > Unfit

== reserving room takes nothing
reserve > Reserved
";

#[test]
fn what_is_taken_makes_payloads(rt: HostRuntime) -> Result<(), Fail> {
    follow::<Taking>(rt.alloc(), SCRIPTS)
}
