//! Connections without a session that goes on: what is written, how they end, and calls.

use super::serving::Serving;
use crate::askers::Scripted;
use chord_serve::laws;
use chord_testkit::follow;
use std::test::Fail;

/// Requests and their answers.
pub const SERVED: &str = "
== a number is one request's and is asked once
# the same again gets its reply; another under its number gets 8, and a number out of line 9
serve insert.1.a.x insert.1.a.x insert.1.a.y retrieve.3.a > Ended 2*added.1 fault.1.8 fault.3.9, asked 1, reads 2, writes 1

== a request that got a fault is asked again; a request without an answer gets fault 11; a floor gives up numbers without a reply
# a new request once, and again once: not after its reply
full 3*insert.1.a.x > Ended fault.1.10 2*added.1, asked 1, retried 1, floor 0, reads 2, writes 1
late 3*insert.1.a.x > Ended fault.1.11 2*added.1, asked 1, retried 1, floor 0, reads 2, writes 1
# floor 1 gives up 1; 2 is added when it is asked again; 3 gets no reply; 1 and 2 are at or below
# floor 2; 3 is present when it is asked again, in a frame with a lower floor
full insert.1/0.a.x insert.2/0.a.x insert.2/1.a.x insert.3/2.a.x insert.1/0.a.x insert.2/1.a.x insert.3/0.a.x > Ended fault.1.10 fault.2.10 added.2 fault.3.10 fault.1.9 fault.2.9 present.3, asked 3, retried 2, floor 2, reads 2, writes 1

== version 1 goes on behind a fault
# the next number is asked, and gives up the one before
late insert.1.a.x insert.2.a.y insert.1.a.x > Ended fault.1.11 fault.2.11 fault.1.9, asked 2, retried 0, floor 1, reads 2, writes 1

== a session ends with its input
serve > Ended, asked 0, reads 1, writes 0
serve x.000000 > Truncated, asked 0, reads 2, writes 0
serve insert.1.a.x > Ended added.1, asked 1, reads 2, writes 1
serve insert.1/0.a.x > Ended added.1, asked 1, reads 2, writes 1

== a faulty frame ends the session with its fault
serve retrieve.2.a@4=09 > Malformed(BadVersion) fault.0.2, asked 0, reads 1, writes 1
serve retrieve.2.a@5=04 > Malformed(BadOperation) fault.0.3, asked 0, reads 1, writes 1
serve retrieve.2.a@14=00 > Malformed(BadKey) fault.2.4, asked 0, reads 1, writes 1
serve insert.1.a.x@17=02 > Malformed(BadValue) fault.1.5, asked 0, reads 1, writes 1
serve insert.1.a.x@17=00 > Malformed(Trailing) fault.1.6, asked 0, reads 1, writes 1
serve insert.1/0.a.x@21=01 > Malformed(BadFloor) fault.1.12, asked 0, reads 1, writes 1

== a bad length ends a session; a session keeps its version
# the length alone is told, with number 0
serve x.00001115 > Malformed(BadLength) fault.0.1, asked 0, reads 1, writes 1
# fault 2 is behind the first answer
serve insert.1/0.a.x insert.1.a.x > Malformed(BadVersion) added.1 fault.0.2, asked 1, reads 1, writes 1

== a connection without an open is served as ever; a close without a session is refused
serve 2*insert.1.a.x > Ended 2*added.1, asked 1, reads 2, writes 1
serve close > Malformed(OutOfPlace) fault.0.16, asked 0, reads 1, writes 1
# so is an open behind a request
serve insert.1/0.a.x resume > Malformed(OutOfPlace) added.1 fault.0.16, asked 1, reads 1, writes 1

== half a frame writes nothing; a refused frame goes out with the answers before it
serve insert.1.a.x:18 > Truncated, asked 0, reads 2, writes 0
# nothing behind it is asked
serve 2*insert.1.a.x retrieve.2.a@5=04 insert.1.a.x > Malformed(BadOperation) 2*added.1 fault.0.3, asked 1, reads 1, writes 1
";

/// The same over devices that move few bytes in a call, and fail after some calls. Three requests
/// of 19, 16 and 19 bytes have answers of 15, 21 and 15.
const LIMITED: &str = "
== frames cut anywhere are answered as far as they are whole
serve cut 0..0 three > Ended, asked 0, reads 1, writes 0
serve cut 1..18 three > Truncated, asked 0, reads 2, writes 0
serve cut 19..19 three > Ended added.1, asked 1, reads 2, writes 1
serve cut 20..34 three > Truncated added.1, asked 1, reads 2, writes 1
serve cut 35..35 three > Ended added.1 values.2.x, asked 2, reads 2, writes 1
serve cut 36..53 three > Truncated added.1 values.2.x, asked 2, reads 2, writes 1
serve cut 54..54 three > Ended added.1 values.2.x removed.3, asked 3, reads 2, writes 1

== a reader that fails ends the session
# each call reads 7 bytes, and the ninth finds the end
serve reads 7x0 three > Read, asked 0, reads 0, writes 0
serve reads 7x1 three > Read, asked 0, reads 1, writes 0
serve reads 7x2 three > Read, asked 0, reads 2, writes 0
serve reads 7x3 three > Read added.1, asked 1, reads 3, writes 1
serve reads 7x4 three > Read added.1, asked 1, reads 4, writes 1
serve reads 7x5 three > Read added.1 values.2.x, asked 2, reads 5, writes 2
serve reads 7x6 three > Read added.1 values.2.x, asked 2, reads 6, writes 2
serve reads 7x7 three > Read added.1 values.2.x, asked 2, reads 7, writes 2
serve reads 7x8 three > Read added.1 values.2.x removed.3, asked 3, reads 8, writes 3
serve reads 7x9 three > Ended added.1 values.2.x removed.3, asked 3, reads 9, writes 3

== a writer that fails ends the session; a writer that takes no byte ends the session
# each call takes 7 of the 51 bytes, which are written together
serve writes 7x0 three > Write, asked 3, reads 1, writes 0
serve writes 7x1 three > Write x.0000000b018100, asked 3, reads 1, writes 1
serve writes 7x2 three > Write x.0000000b01810000000000000001, asked 3, reads 1, writes 2
serve writes 7x3 three > Write added.1 x.000000110182, asked 3, reads 1, writes 3
serve writes 7x4 three > Write added.1 x.00000011018200000000000000, asked 3, reads 1, writes 4
serve writes 7x5 three > Write added.1 x.0000001101820000000000000002000000010001, asked 3, reads 1, writes 5
serve writes 7x6 three > Write added.1 values.2.x x.0000000b0183, asked 3, reads 1, writes 6
serve writes 7x7 three > Write added.1 values.2.x x.0000000b018300000000000000, asked 3, reads 1, writes 7
serve writes 7x8 three > Ended added.1 values.2.x removed.3, asked 3, reads 2, writes 8
serve writes 0x20 three > Write, asked 3, reads 1, writes 1

== a session makes at most its turns of reads
serve reads 30x100 turns 1 three > TurnsSpent added.1, asked 1, reads 1, writes 1
serve reads 54x100 turns 1 three > TurnsSpent added.1 values.2.x removed.3, asked 3, reads 1, writes 1
serve reads 54x100 turns 2 three > Ended added.1 values.2.x removed.3, asked 3, reads 2, writes 1
serve reads 1x100 turns 60 three > Ended added.1 values.2.x removed.3, asked 3, reads 55, writes 3
serve reads 1x100 turns 40 three > TurnsSpent added.1 values.2.x, asked 2, reads 40, writes 2
serve reads 54x100 turns 0 three > TurnsSpent, asked 0, reads 0, writes 0

== the answers to one read are one write
serve reads 4096x100 three > Ended added.1 values.2.x removed.3, asked 3, reads 2, writes 1
serve reads 54x100 three > Ended added.1 values.2.x removed.3, asked 3, reads 2, writes 1
serve reads 35x100 three > Ended added.1 values.2.x removed.3, asked 3, reads 3, writes 2
serve reads 19x100 three > Ended added.1 values.2.x removed.3, asked 3, reads 4, writes 3
serve reads 1x100 three > Ended added.1 values.2.x removed.3, asked 3, reads 55, writes 3

== large reads double up to their size
# 13,300 bytes: three reads of 4,096, one of 1,012, and the end; one of 4,096, one of 8,192, one of
# 1,012, and the end
serve 700*insert.1.a.x > Ended 700*added.1, asked 1, reads 5, writes 4
serve large 700*insert.1.a.x > Ended 700*added.1, asked 1, reads 4, writes 3

== a failed write ends the session; a write that fails is the end though a frame was refused
# each of three reads has one frame
serve reads 19x100 writes 4096x0 three > Write, asked 1, reads 1, writes 0
serve reads 19x100 writes 4096x1 three > Write added.1, asked 2, reads 2, writes 1
serve reads 19x100 writes 4096x2 three > Write added.1 values.2.x, asked 3, reads 3, writes 2
serve reads 19x100 writes 4096x3 three > Ended added.1 values.2.x removed.3, asked 3, reads 4, writes 3
serve writes 4096x0 2*insert.1.a.x retrieve.2.a@5=04 insert.1.a.x > Write, asked 1, reads 1, writes 0

== what is due is written before memory ends a session; a write fails though memory ran out
memory 1 insert.1.a.x insert.2.a.x insert.3.a.x > Memory, asked 1, reads 1, writes 0
memory 2 insert.1.a.x insert.2.a.x insert.3.a.x > Memory added.1, asked 2, reads 1, writes 1
memory 3 insert.1.a.x insert.2.a.x insert.3.a.x > Memory added.1 present.2, asked 3, reads 1, writes 1
# all three were asked before the write
memory 3 writes 4096x0 insert.1.a.x insert.2.a.x insert.3.a.x > Write, asked 3, reads 1, writes 0

== more than 64 kib are written at once; a second write that fails leaves the first
serve values 1 retrieve.1.a retrieve.2.a retrieve.3.a > Ended values.1#4116 values.2#4116 values.3#4116, asked 3, reads 2, writes 1
serve values 15 retrieve.1.a retrieve.2.a retrieve.3.a > Ended values.1#61488 values.2#61488 values.3#61488, asked 3, reads 2, writes 2
serve values 16 retrieve.1.a retrieve.2.a retrieve.3.a > Ended values.1#65586 values.2#65586 values.3#65586, asked 3, reads 2, writes 3
serve values 16 writes 4096000x1 retrieve.1.a retrieve.2.a retrieve.3.a > Write values.1#65586, asked 2, reads 1, writes 1
";

/// How large reads are, and output.
const SIZES: &str = "
== sizes of reads; output above 64 kib is full; output that is due is written
small-reads > 4096
large-reads > 65536
due 0 0 > full No, wrote 0 true, then nothing true
due 65536 0 > full No, wrote 65536 true, then nothing true
due 65537 0 > full Yes, wrote 65537 true, then nothing true
# all of it, and once
due 3 2 > full No, wrote 5 true, then nothing true
";

/// How a connection begins.
const GREETINGS: &str = "
== an open is taken and what is behind it stays
greet open insert.1/0.a.x > open, taken 39, token 0102030405060708090a0b0c0d0e0f10
greet resume > resume, taken 39, token 0102030405060708090a0b0c0d0e0f10

== another beginning is left as it is; an open is known once it is whole
greet cut 0..5 insert.1.a.x > more, taken 0
greet cut 6..19 insert.1.a.x > no open, taken 0
greet cut 0..5 close > more, taken 0
greet cut 6..22 close > no open, taken 0
# it neither begins a session nor resumes one
greet cut 0..38 open@38=02 > more, taken 0
greet cut 39..39 open@38=02 > no open, taken 0
# the length is refused
greet cut 0..3 x.0000000102040000 > more, taken 0
greet cut 4..8 x.0000000102040000 > no open, taken 0
greet cut 0..38 resume > more, taken 0

== a client is told why no session begins; a connection without a caller is told
tell known > told fault.0.13
tell none > told fault.0.14
tell spent > told fault.0.15
tell spent room 6 > not told x.0000000b01ff

== a session of a connection has no version yet
# nothing was asked
anew > floor 0, last 0, asked 0
";

#[test]
fn connections_are_served(rt: HostRuntime) -> Result<(), Fail> {
    follow::<Serving>(rt.alloc(), SERVED)?;
    follow::<Serving>(rt.alloc(), LIMITED)?;
    follow::<Serving>(rt.alloc(), SIZES)?;
    follow::<Serving>(rt.alloc(), GREETINGS)
}

/// Calls. A request takes three writes of 7 bytes in version 1 and four in version 2, and an answer
/// three reads.
pub const CALLS: &str = "
== a call writes its frame and reads its answer
call 1 added.1 > 1 added, reads 1, wrote insert.1.a.x
call-on 2 added.1 > 1 added, reads 1, wrote insert.1/0.a.x

== a call makes no read more than it needs
call 1 reads 7x9 writes 7x3 turns 3 added.1 > 1 added, reads 3, wrote insert.1.a.x
call 2 reads 7x9 writes 7x4 turns 3 added.1 > 1 added, reads 3, wrote insert.1/0.a.x

== a call says why it has no answer
call 1 reads 7x9 writes 7x3 turns 9 > Ended, reads 1, wrote insert.1.a.x
call 2 reads 7x9 writes 7x4 turns 9 > Ended, reads 1, wrote insert.1/0.a.x
call 1 reads 7x1 writes 7x3 turns 9 added.1 > Read, reads 1, wrote insert.1.a.x
call 2 reads 7x1 writes 7x4 turns 9 added.1 > Read, reads 1, wrote insert.1/0.a.x
call 1 reads 7x0 writes 7x3 turns 9 added.1 > Read, reads 0, wrote insert.1.a.x
call 2 reads 7x0 writes 7x4 turns 9 added.1 > Read, reads 0, wrote insert.1/0.a.x
# one write too few, and none
call 1 reads 7x9 writes 7x2 turns 9 added.1 > Write, reads 0, wrote x.0000000f01010000000000000001
call 2 reads 7x9 writes 7x3 turns 9 added.1 > Write, reads 0, wrote x.000000170201000000000000000100000000000000
call 1 reads 7x9 writes 7x0 turns 9 added.1 > Write, reads 0, wrote
call 2 reads 7x9 writes 7x0 turns 9 added.1 > Write, reads 0, wrote
call 1 reads 7x9 writes 7x3 turns 2 added.1 > TurnsSpent, reads 2, wrote insert.1.a.x
call 2 reads 7x9 writes 7x4 turns 2 added.1 > TurnsSpent, reads 2, wrote insert.1/0.a.x
call 1 reads 7x9 writes 7x3 turns 0 added.1 > TurnsSpent, reads 0, wrote insert.1.a.x
call 2 reads 7x9 writes 7x4 turns 0 added.1 > TurnsSpent, reads 0, wrote insert.1/0.a.x
# answers have version 1
call 1 reads 7x9 writes 7x3 turns 9 added.1@4=02 > Malformed(BadVersion), reads 3, wrote insert.1.a.x
call 2 reads 7x9 writes 7x4 turns 9 added.1@4=02 > Malformed(BadVersion), reads 3, wrote insert.1/0.a.x
";

#[test]
fn calls_are_answered(rt: HostRuntime) -> Result<(), Fail> {
    follow::<Serving>(rt.alloc(), CALLS)
}

#[test]
fn laws_are_called() {
    laws::replies_are_of_their_kind::<Scripted>();
    laws::one_output::<Scripted>();
}
