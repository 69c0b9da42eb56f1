//! A client with several requests in flight, against the server, over memory.

use super::flying::Flight;
use chord_testkit::follow;
use std::test::Fail;

/// Requests that are sent, and sent again.
pub const SENT: &str = "
== sixteen in flight; sixteen answers raise the floor
send insert > 1 insert.1/0.a.x; awaits 1, floor 0, last 1, wrote 27
send insert > 2 insert.2/0.a.x; awaits 2, floor 0, last 2, wrote 54
send insert > 3 insert.3/0.a.x; awaits 3, floor 0, last 3, wrote 81
send insert > 4 insert.4/0.a.x; awaits 4, floor 0, last 4, wrote 108
send insert > 5 insert.5/0.a.x; awaits 5, floor 0, last 5, wrote 135
send insert > 6 insert.6/0.a.x; awaits 6, floor 0, last 6, wrote 162
send insert > 7 insert.7/0.a.x; awaits 7, floor 0, last 7, wrote 189
send insert > 8 insert.8/0.a.x; awaits 8, floor 0, last 8, wrote 216
send insert > 9 insert.9/0.a.x; awaits 9, floor 0, last 9, wrote 243
send insert > 10 insert.10/0.a.x; awaits 10, floor 0, last 10, wrote 270
send insert > 11 insert.11/0.a.x; awaits 11, floor 0, last 11, wrote 297
send insert > 12 insert.12/0.a.x; awaits 12, floor 0, last 12, wrote 324
send insert > 13 insert.13/0.a.x; awaits 13, floor 0, last 13, wrote 351
send insert > 14 insert.14/0.a.x; awaits 14, floor 0, last 14, wrote 378
send insert > 15 insert.15/0.a.x; awaits 15, floor 0, last 15, wrote 405
send insert > 16 insert.16/0.a.x; awaits 16, floor 0, last 16, wrote 432, full
# a full window sends nothing
send insert > WindowFull
serve > Ended added.1 present.2 present.3 present.4 present.5 present.6 present.7 present.8 present.9 present.10 present.11 present.12 present.13 present.14 present.15 present.16
# the next one has the floor 16
receive > 1: 1 added; awaits 15, floor 1, last 16, wrote 432
receive > 2: 2 present; awaits 14, floor 2, last 16, wrote 432
receive > 3: 3 present; awaits 13, floor 3, last 16, wrote 432
receive > 4: 4 present; awaits 12, floor 4, last 16, wrote 432
receive > 5: 5 present; awaits 11, floor 5, last 16, wrote 432
receive > 6: 6 present; awaits 10, floor 6, last 16, wrote 432
receive > 7: 7 present; awaits 9, floor 7, last 16, wrote 432
receive > 8: 8 present; awaits 8, floor 8, last 16, wrote 432
receive > 9: 9 present; awaits 7, floor 9, last 16, wrote 432
receive > 10: 10 present; awaits 6, floor 10, last 16, wrote 432
receive > 11: 11 present; awaits 5, floor 11, last 16, wrote 432
receive > 12: 12 present; awaits 4, floor 12, last 16, wrote 432
receive > 13: 13 present; awaits 3, floor 13, last 16, wrote 432
receive > 14: 14 present; awaits 2, floor 14, last 16, wrote 432
receive > 15: 15 present; awaits 1, floor 15, last 16, wrote 432
receive > 16: 16 present; awaits 0, floor 16, last 16, wrote 432
send insert > 17 insert.17/16.a.x; awaits 1, floor 16, last 17, wrote 459

== a full store keeps the window; only what was refused is sent again
client 2 2 > Begun
send insert > 1 insert.1/0.a.x; awaits 1, floor 0, last 1, wrote 27
send insert > 2 insert.2/0.a.x; awaits 2, floor 0, last 2, wrote 54, full
again 1 > NotRefused
serve full > Ended fault.1.10 fault.2.10
receive > 1: 1 Full; awaits 1, floor 0, last 2, wrote 54, full
receive > 2: 2 Full; awaits 0, floor 0, last 2, wrote 54, full
again 3 > NotRefused
# unchanged, in any order
again 2 > Ok insert.2/0.a.x; awaits 1, floor 0, last 2, wrote 81, full
again 2 > NotRefused
again 1 > Ok insert.1/0.a.x; awaits 2, floor 0, last 2, wrote 108, full

== a full store is asked again; what is sent again is answered
client 2 2 > Begun
send insert > 1 insert.1/0.a.x; awaits 1, floor 0, last 1, wrote 27
send insert > 2 insert.2/0.a.x; awaits 2, floor 0, last 2, wrote 54, full
serve full > Ended fault.1.10 fault.2.10
receive > 1: 1 Full; awaits 1, floor 0, last 2, wrote 54, full
receive > 2: 2 Full; awaits 0, floor 0, last 2, wrote 54, full
again 2 > Ok insert.2/0.a.x; awaits 1, floor 0, last 2, wrote 81, full
again 1 > Ok insert.1/0.a.x; awaits 2, floor 0, last 2, wrote 108, full
serve full > Ended added.2 present.1
# the floor waits for the least number
receive > 2: 2 added; awaits 1, floor 0, last 2, wrote 108, full
receive > 1: 1 present; awaits 0, floor 2, last 2, wrote 108

== one at a time; an unanswered request holds back the next; it is answered then
client 1 1 > Begun
send insert > 1 insert.1.a.x; awaits 1, floor 0, last 1, wrote 19, full
come fault.1.11 > Come
receive > 1: 1 NoAnswer; awaits 0, floor 0, last 1, wrote 19, full
send retrieve > WindowFull
again 1 > Ok insert.1.a.x; awaits 1, floor 0, last 1, wrote 38, full
come added.1 > Come
receive > 1: 1 added; awaits 0, floor 1, last 1, wrote 38

== a client tells the number of its last request
client 2 2 > Begun
send insert > 1 insert.1/0.a.x; awaits 1, floor 0, last 1, wrote 27
send retrieve > 2 retrieve.2/0.a; awaits 2, floor 0, last 2, wrote 51, full
send remove > WindowFull

== replies in order
client 2 3 > Begun
send insert > 1 insert.1/0.a.x; awaits 1, floor 0, last 1, wrote 27
send retrieve > 2 retrieve.2/0.a; awaits 2, floor 0, last 2, wrote 51
send remove > 3 remove.3/0.a.y; awaits 3, floor 0, last 3, wrote 78, full
serve > Ended added.1 values.2.x absent.3
receive > 1: 1 added; awaits 2, floor 1, last 3, wrote 78
receive > 2: 2 values 1 78; awaits 1, floor 2, last 3, wrote 78
receive > 3: 3 absent; awaits 0, floor 3, last 3, wrote 78
";

const FAULTS: &str = "
== which windows
client 1 1 > Begun
client 1 0 > None; no client
client 1 2 > None
client 2 0 > None
client 2 1 > Begun; awaits 0, floor 0, last 0, wrote 0
client 2 16 > Begun
client 2 17 > None; no client
client 3 1 > None
client 0 1 > None

== answers that are none
# nothing is asked; then the request still waits for its answer
new come > Come
receive > Idle
send insert > 1 insert.1/0.a.x; awaits 1, floor 0, last 1, wrote 27
receive > Call(Ended)
new come added.1:14 > Come; awaits 0, floor 0, last 0, wrote 0
receive > Idle
send insert > 1 insert.1/0.a.x; awaits 1, floor 0, last 1, wrote 27
receive > Call(Ended)
# answers have version 1
new come added.1@4=02 > Come; awaits 0, floor 0, last 0, wrote 0
receive > Idle
send insert > 1 insert.1/0.a.x; awaits 1, floor 0, last 1, wrote 27
receive > Call(Malformed(BadVersion))
new come added.2 > Come; awaits 0, floor 0, last 0, wrote 0
receive > Idle
send insert > 1 insert.1/0.a.x; awaits 1, floor 0, last 1, wrote 27
receive > WrongNumber
# a bad length is told with number 0
new come fault.0.1 > Come; awaits 0, floor 0, last 0, wrote 0
receive > Idle
send insert > 1 insert.1/0.a.x; awaits 1, floor 0, last 1, wrote 27
receive > WrongNumber
new come fault.0.15 > Come; awaits 0, floor 0, last 0, wrote 0
receive > Idle
send insert > 1 insert.1/0.a.x; awaits 1, floor 0, last 1, wrote 27
receive > CallersSpent
new come removed.1 > Come; awaits 0, floor 0, last 0, wrote 0
receive > Idle
send insert > 1 insert.1/0.a.x; awaits 1, floor 0, last 1, wrote 27
receive > WrongKind

== slow and failing readers
# the answer has 15 bytes
new come added.1 > Come
send insert > 1 insert.1/0.a.x; awaits 1, floor 0, last 1, wrote 27
receive reads 1x20 turns 14 > Call(TurnsSpent)
new come added.1 > Come; awaits 0, floor 0, last 0, wrote 0
send insert > 1 insert.1/0.a.x; awaits 1, floor 0, last 1, wrote 27
receive reads 1x14 turns 20 > Call(Read)
new come added.1 > Come; awaits 0, floor 0, last 0, wrote 0
send insert > 1 insert.1/0.a.x; awaits 1, floor 0, last 1, wrote 27
receive reads 1x20 turns 15 > 1: 1 added; awaits 0, floor 1, last 1, wrote 27

== a writer that fails; a writer that fails again
# a request whose frame was written only in part counts as sent
send writes 7x1 insert > Write x.00000017020100; awaits 1, floor 0, last 1, wrote 7
come fault.1.10 > Come
receive turns 1 > 1: 1 Full; awaits 0, floor 0, last 1, wrote 7
again writes 7x0 1 > Write; awaits 1, floor 0, last 1, wrote 7

== faults have texts
says ended > no answer came: the other end ended the connection
says idle > no answer is awaited
says full > as many requests as the window holds are in flight
says not-refused > no request of this number got a fault and was not sent again since
";

#[test]
fn clients_have_requests_in_flight(rt: HostRuntime) -> Result<(), Fail> {
    follow::<Flight>(rt.alloc(), SENT)?;
    follow::<Flight>(rt.alloc(), FAULTS)
}
