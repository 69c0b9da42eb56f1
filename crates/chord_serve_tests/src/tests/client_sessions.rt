//! What a client makes of the answers to an open and to a close, over memory.

use super::flying::Flight;
use chord_testkit::follow;
use std::test::Fail;

const SCRIPTS: &str = "
== answers to an open
new begin opened.0.0 > Ok open
new resume opened.0.0 > Ok resume
new begin fault.0.13 > Open(SessionKnown) open
new resume fault.0.13 > Open(SessionKnown) resume
new begin fault.0.14 > Open(NoSession) open
new resume fault.0.14 > Open(NoSession) resume
new begin fault.0.15 > Open(CallersSpent) open
new resume fault.0.15 > Open(CallersSpent) resume
new begin fault.0.16 > Open(OutOfPlace) open
new resume fault.0.16 > Open(OutOfPlace) resume
new begin fault.0.3 > Open(Refused(BadOperation)) open
new resume fault.0.3 > Open(Refused(BadOperation)) resume
new begin fault.1.14 > Open(OtherAnswer) open
new resume fault.1.14 > Open(OtherAnswer) resume
new begin closed > Open(OtherAnswer) open
new resume closed > Open(OtherAnswer) resume
new begin added.1 > Open(OtherAnswer) open
new resume added.1 > Open(OtherAnswer) resume
# the last number, and the floor, of another session
new begin opened.0.1 > Open(OtherNumbers) open
new resume opened.0.1 > Open(OtherNumbers) resume
new begin opened.1.0 > Open(OtherNumbers) open
new resume opened.1.0 > Open(OtherNumbers) resume
new begin > Open(Call(Ended)) open
new resume > Open(Call(Ended)) resume
new begin opened.0.0:29 > Open(Call(Ended)) open
new resume opened.0.0:29 > Open(Call(Ended)) resume
# answers have version 1
new begin opened.0.0@4=02 > Open(Call(Malformed(BadVersion))) open
new resume opened.0.0@4=02 > Open(Call(Malformed(BadVersion))) resume

== bytes behind an opened are refused
new begin opened.0.0 added.1 > Open(Unasked) open
new resume opened.0.0 added.1 > Open(Unasked) resume

== slow and failing readers of an open
# the answer has 30 bytes
client 2 1 > Begun
begin reads 1x40 turns 29 opened.0.0 > Open(Call(TurnsSpent)) open
client 2 1 > Begun
begin reads 1x29 turns 40 opened.0.0 > Open(Call(Read)) open
client 2 1 > Begun
begin reads 1x40 turns 30 opened.0.0 > Ok open

== clients that have no session; they have version 1
client 1 1 > Begun
send insert > 1 insert.1.a.x; awaits 1, floor 0, last 1, wrote 19, full
begin > Version
close > Version
resume > Version

== clients that have no session; they sent a request, or await an answer
client 2 1 > Begun
send insert > 1 insert.1/0.a.x; awaits 1, floor 0, last 1, wrote 27, full
begin > Used
close > InFlight

== a writer that fails while a client resumes
# the open has 39 bytes, and the request that is written again 27
client 2 1 > Begun
send insert > 1 insert.1/0.a.x; awaits 1, floor 0, last 1, wrote 27, full
resume room 0 opened.0.0 > Open(Call(Write))
client 2 1 > Begun; awaits 0, floor 0, last 0, wrote 0
send insert > 1 insert.1/0.a.x; awaits 1, floor 0, last 1, wrote 27, full
resume room 38 opened.0.0 > Open(Call(Write)) x.00000023020400000000000000000000000000000000\
0102030405060708090a0b0c0d0e0f10
client 2 1 > Begun; awaits 0, floor 0, last 0, wrote 0
send insert > 1 insert.1/0.a.x; awaits 1, floor 0, last 1, wrote 27, full
resume room 39 opened.0.0 > Write resume
client 2 1 > Begun; awaits 0, floor 0, last 0, wrote 0
send insert > 1 insert.1/0.a.x; awaits 1, floor 0, last 1, wrote 27, full
resume room 65 opened.0.0 > Write resume x.0000001702010000000000000001000000000000000001610001
client 2 1 > Begun; awaits 0, floor 0, last 0, wrote 0
send insert > 1 insert.1/0.a.x; awaits 1, floor 0, last 1, wrote 27, full
resume room 66 opened.0.0 > Ok resume insert.1/0.a.x

== answers to a close
new close closed > Ok close
new close fault.0.16 > Refused(OutOfPlace) close
new close fault.1.16 > OtherAnswer close
new close opened.0.0 > OtherAnswer close
new close added.1 > OtherAnswer close
new close > Call(Ended) close

== bytes that no request asked for are told at the close
client 2 1 > Begun
send insert > 1 insert.1/0.a.x; awaits 1, floor 0, last 1, wrote 27, full
come added.1 x.07 > Come
receive > 1: 1 added; awaits 0, floor 1, last 1, wrote 27
close closed > Unasked
";

#[test]
fn clients_begin_resume_and_close(rt: HostRuntime) -> Result<(), Fail> {
    follow::<Flight>(rt.alloc(), SCRIPTS)
}
