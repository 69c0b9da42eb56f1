//! Frames, as docs/protocol.md has them.

pub mod framing;

use chord_testkit::follow;
use chord_wire::laws;
use framing::Framing;
use std::test::Fail;

/// The bytes of frames: what is read of them is written so.
pub const WRITTEN: &str = "
== writes requests
back client insert.1.a.x > 0000000f 01 01 0000000000000001 0161000178
back client retrieve.1.a > 0000000c 01 02 0000000000000001 0161
back client retrieve.2.a > 0000000c 01 02 0000000000000002 0161
back client remove.3.a.x > 0000000f 01 03 0000000000000003 0161000178
# version 2, with floor 0
back client insert.1/0.a.x > 00000017 02 01 0000000000000001 00000000000000000161000178

== writes replies
back server added.1 > 0000000b 01 81 0000000000000001 01
back server values.2.x > 00000011 01 82 0000000000000002 00000001000178
back server values.2.x.y > 00000014 01 82 0000000000000002 00000002000178000179
back server removed.3 > 0000000b 01 83 0000000000000003 01

== writes faults
back server fault.0.2 > 0000000b 01 ff 0000000000000000 02
back server fault.1.10 > 0000000b 01 ff 0000000000000001 0a

== session frames are written
back client open > 00000023 02 04 0000000000000000 00000000000000000102030405060708090a0b0c0d0e0f1000
back client resume > 00000023 02 04 0000000000000000 00000000000000000102030405060708090a0b0c0d0e0f1001
back client close > 00000012 02 05 0000000000000000 0000000000000000
back server opened.3.258 > 0000001a 01 84 0000000000000000 00000000000000030000000000000102
back server closed > 0000000a 01 85 0000000000000000 -
";

/// Streams of frames.
pub const READ: &str = "
== reads requests in any pieces
pieces insert.1.a.x > Fed; left 19
next > version 1 1/0 a+x; left 0
pieces insert.1/0.a.x > Fed; left 27
next > version 2 1/0 a+x; left 0

== reads answers in any pieces
stream answers > Begun
bytes added.1 values.2.x > Fed; left 36
feed values.2.x.y > Fed; left 60
next > 1 added; left 45
next > 2 values 1 78; left 24
next > 2 values 2 78 79; left 0
next > None

== answers are read as they come
stream answers > Begun
pieces values.2.x > Fed; left 21
feed values.2.x.y > Fed; left 45
next > 2 values 1 78; left 24
next > 2 values 2 78 79; left 0

== reads whole requests; session frames are read
read requests insert.1.a.x > version 1 1/0 a+x
read requests insert.1/0.a.x > version 2 1/0 a+x
cut client resume > resume 0102030405060708090a0b0c0d0e0f10
cut client close > close
cut client insert.1/0.a.x > version 2 1/0 a+x
cut client insert.1.a.x > version 1 1/0 a+x

== session answers are read; two bytes tell an open
cut server opened.3.258 > opened 3 258
cut server closed > closed
cut server added.1 > 1 added
cut server fault.0.13 > 0 SessionKnown
opens resume:5 > None
opens resume:6 > Yes
opens close > No
opens insert.1.a.x > No
";

/// Frames with a byte that is changed, and the first fault that the table has for them.
const FAULTS: &str = "
== tells the faults of the rows
read requests x.00000000 > BadLength 0
read requests x.00001115 > BadLength 0
read requests retrieve.1.a@4=09 > BadVersion 0
read requests retrieve.1.a@14=00 > BadKey 1
read requests retrieve.1.a@3=0d x.00 > Trailing 1
# the floor is cut off
read requests retrieve.1.a@4=02 > BadFloor 1

== each field of a request has its faults
read requests insert.1.a.x@3=0b > BadLength 0
read requests insert.1.a.x@2=12 > BadLength 0
read requests insert.1.a.x@4=09 > BadVersion 0
read requests insert.1.a.x@4=00 > BadVersion 0
read requests insert.1.a.x@5=04 > BadOperation 0
read requests insert.1.a.x@5=00 > BadOperation 0
read requests insert.1.a.x@14=00 > BadKey 1
read requests insert.1.a.x@14=05 > BadKey 1
read requests insert.1.a.x@14=04 > BadValue 1
read requests insert.1.a.x@17=02 > BadValue 1
read requests insert.1.a.x@16=10 > BadValue 1
read requests insert.1.a.x@17=00 > Trailing 1
read requests retrieve.1.a@4=09 > BadVersion 0
read requests retrieve.1.a@5=04 > BadOperation 0
read requests retrieve.1.a@5=01 > BadValue 1
read requests retrieve.1.a@14=00 > BadKey 1
read requests retrieve.1.a@14=02 > BadKey 1
read requests insert.1/0.a.x@3=0b > BadLength 0
read requests insert.1/0.a.x@4=03 > BadVersion 0
read requests insert.1/0.a.x@4=01 > BadKey 1
read requests insert.1/0.a.x@5=04 > BadOperation 0
read requests insert.1/0.a.x@13=00 > BadFloor 0
read requests insert.1/0.a.x@13=11 > BadFloor 17
read requests insert.1/0.a.x@21=01 > BadFloor 1
read requests insert.1/0.a.x@22=00 > BadKey 1
read requests insert.1/0.a.x@25=02 > BadValue 1
read requests insert.1/0.a.x@25=00 > Trailing 1

== each field of an answer has its faults
read answers added.1@3=0a > BadLength 0
read answers added.1@1=3f > BadLength 0
read answers added.1@4=02 > BadVersion 0
read answers added.1@5=01 > BadOperation 0
read answers added.1@5=84 > BadOperation 0
read answers added.1@14=03 > BadValue 1
read answers added.1@5=82 > BadValue 1
read answers values.2.x@5=83 > Trailing 2
read answers values.2.x@17=00 > Trailing 2
read answers values.2.x@17=02 > BadValue 2
read answers values.2.x@14=01 > BadValue 2
read answers values.2.x@19=02 > BadValue 2
read answers values.2.x@18=10 > BadValue 2
read answers values.2.x@19=00 > Trailing 2
# values that do not rise
read answers values.2.x.y@23=78 > BadValue 2
read answers values.2.x.y@23=77 > BadValue 2

== each field of a session frame has its faults
read client resume@3=0b > BadLength 0
read client resume@2=12 > BadLength 0
read client resume@4=03 > BadVersion 0
# version 1 has no open
read client resume@4=01 > BadOperation 0
read client resume@5=06 > BadOperation 0
read client resume@13=09 > BadFloor 9
read client resume@21=01 > BadFloor 0
read client resume@38=02 > BadValue 0
# the flag is the last byte of a close that trails
read client resume@5=05 > Trailing 0
read client close@4=01 > BadOperation 0
read client close@13=01 > BadFloor 1
read client close@21=01 > BadFloor 0
# an open without a token
read client close@5=04 > BadValue 0

== each field of a session answer has its faults
read server opened.3.258@3=09 > BadLength 0
read server opened.3.258@4=02 > BadVersion 0
read server opened.3.258@5=86 > BadOperation 0
read server opened.3.258@13=07 > BadValue 7
read server opened.3.258@5=85 > Trailing 0
read server closed@4=02 > BadVersion 0
read server closed@13=07 > BadValue 7
read server closed@5=84 > BadValue 0
";

/// Codes, and what is in a frame.
const CODES: &str = "
== faults are read back; faults are written; no other code is a fault
code 1 > BadLength 1, read 1 BadLength, wrote fault.1.1
code 2 > BadVersion 2, read 1 BadVersion, wrote fault.1.2
code 3 > BadOperation 3, read 1 BadOperation, wrote fault.1.3
code 4 > BadKey 4, read 1 BadKey, wrote fault.1.4
code 5 > BadValue 5, read 1 BadValue, wrote fault.1.5
code 6 > Trailing 6, read 1 Trailing, wrote fault.1.6
code 8 > NumberReused 8, read 1 NumberReused, wrote fault.1.8
code 9 > BadNumber 9, read 1 BadNumber, wrote fault.1.9
code 10 > Full 10, read 1 Full, wrote fault.1.10
code 11 > NoAnswer 11, read 1 NoAnswer, wrote fault.1.11
code 12 > BadFloor 12, read 1 BadFloor, wrote fault.1.12
code 13 > SessionKnown 13, read 1 SessionKnown, wrote fault.1.13
code 14 > NoSession 14, read 1 NoSession, wrote fault.1.14
code 15 > CallersSpent 15, read 1 CallersSpent, wrote fault.1.15
code 16 > OutOfPlace 16, read 1 OutOfPlace, wrote fault.1.16
code 0 > None, read BadValue 1
code 7 > None, read BadValue 1
code 17 > None, read BadValue 1

== tells what has a frame; the longest request is read back
writable absent > Yes
# values of at most 4,096 bytes, which rise
writable values > Yes
writable values #4096 > Yes
writable values #4097 > No
writable values x x > No
writable values y x > No
back client insert.17/1.#255.#4096 > 4376 bytes

== faults say what is wrong; a token is not shown
says 1 > bad length
says 12 > bad floor
says 8 > the number was another request's
says 10 > the store is full
says 11 > no answer came in time
says 15 > no caller is left for the connection
says 6 7 > request 7: bytes behind the last field
token > Token
";

#[test]
fn frames_are_written(rt: HostRuntime) -> Result<(), Fail> {
    follow::<Framing>(rt.alloc(), WRITTEN)
}

#[test]
fn frames_are_read(rt: HostRuntime) -> Result<(), Fail> {
    follow::<Framing>(rt.alloc(), READ)?;
    follow::<Framing>(rt.alloc(), FAULTS)?;
    follow::<Framing>(rt.alloc(), CODES)
}

#[test]
fn laws_are_called() {
    laws::cuts_do_not_matter();
    laws::one_reading();
    laws::no_frame_begins_another();
    laws::values_of_a_map_have_a_frame();
    laws::faults_are_those_of_the_table();
    laws::requests_are_read_in_a_session();
}
