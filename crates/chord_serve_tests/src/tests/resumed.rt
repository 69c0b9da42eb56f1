//! Sessions over connections that are cut and go on, and connections as links: however they are
//! read and written, and however long a request waits.

use super::visiting::Visits;
use crate::askers::Scripted;
use chord_serve::laws;
use chord_testkit::follow;
use std::test::Fail;

const SCRIPTS: &str = "
== a connection cut on the way in is resumed; a connection cut on the way out is resumed
twice in 0..309 > Read, whole, asked 12
twice out 0..236 > Write, whole, asked 12

== kept answers are given again
visit resume insert.1/0.a.x retrieve.2/0.a > Ended opened.0.0 added.1 values.2.x; floor 0, last 2, kept 36
# and the next number is asked
visit resume retrieve.2/0.a insert.1/0.a.x insert.3/0.a.x > Ended opened.0.2 values.2.x added.1 present.3; floor 0, last 3, kept 51
end > asked 3; no session

== a number at the floor is refused over a new connection
# request 3 says that the client has the answers of 1 and 2
visit resume insert.1/0.a.x insert.2/0.a.x retrieve.3/2.a > Ended opened.0.0 added.1 present.2 values.3.x; floor 2, last 3, kept 21
visit resume insert.1/0.a.x insert.2/0.a.x retrieve.3/2.a remove.4/3.a.x > Ended opened.2.3 fault.1.9 fault.2.9 values.3.x removed.4; floor 3, last 4, kept 15
end > asked 4; no session

== another request under a known number is refused over a new connection
visit resume insert.1/0.a.x > Ended opened.0.0 added.1; floor 0, last 1, kept 15
visit resume insert.1/0.a.y > Ended opened.0.1 fault.1.8
end > asked 1; no session

== a closed session is over
# what is behind the close is not read
visit resume insert.1/0.a.x close insert.2/0.a.y > Quit opened.0.0 added.1 closed, over, asked 1; no session

== a refused frame leaves the session; an open is the first frame alone
visit resume insert.1/0.a.x resume > Malformed(OutOfPlace) opened.0.0 added.1 fault.0.16; floor 0, last 1, kept 15

== a refused frame leaves the session; it is of version 2
visit resume insert.1/0.a.x insert.1.a.x > Malformed(BadVersion) opened.0.0 added.1 fault.0.2; floor 0, last 1, kept 15

== a refused frame leaves the session; it has an operation
visit resume insert.1/0.a.x close@5=09 > Malformed(BadOperation) opened.0.0 added.1 fault.0.3; floor 0, last 1, kept 15

== a close that cannot be told ends the session
visit out 35 resume close > Write opened.0.0 x.0000000a01, over, asked 0; no session

== a session whose asker runs out of memory is over
# nobody knows whether the request acted
memory > Begun
visit resume insert.1/0.a.x > Memory opened.0.0, over, asked 1; no session

== a session tells its floor and its last number
visit resume insert.1/0.a.x retrieve.2/1.a > Ended opened.0.0 added.1 values.2.x; floor 1, last 2, kept 21
end > asked 2; no session

== answers of sessions without a connection are counted; kept answers are counted
# 15 bytes and 21
keep resume insert.1/0.a.x retrieve.2/0.a > 36: none 0, two 72, one 36, of a table 72
# an answer is kept until a floor passes its request: 21 and 21
keep resume insert.1/0.a.x retrieve.2/0.a retrieve.3/1.a > 42: none 0, two 84, one 42, of a table 84
";

const LINKS: &str = "
== a link answers as its requests are cut
link 4096x4096 1 twelve > Some(Ended) added.1 values.2.x removed.3 added.4 present.5 values.6.x added.7 values.8.y absent.9 removed.10 values.11.x values.12, floor 0, last 12, kept 207
link 1x1 1 twelve > Some(Ended) added.1 values.2.x removed.3 added.4 present.5 values.6.x added.7 values.8.y absent.9 removed.10 values.11.x values.12, floor 0, last 12, kept 207
link 7x3 1 twelve > Some(Ended) added.1 values.2.x removed.3 added.4 present.5 values.6.x added.7 values.8.y absent.9 removed.10 values.11.x values.12, floor 0, last 12, kept 207
link 30x5 1 twelve > Some(Ended) added.1 values.2.x removed.3 added.4 present.5 values.6.x added.7 values.8.y absent.9 removed.10 values.11.x values.12, floor 0, last 12, kept 207

== a request that waits is answered in its turn; a request that waits too long has no answer
# each is added at its third try
slow 4096x4096 3 insert.1/0.a.x insert.2/0.a.y > Some(Ended) added.1 added.2, floor 0, last 2, kept 30
slow 4096x4096 1 insert.1/0.a.x insert.2/0.a.y > Some(Ended) fault.1.11 fault.2.11, floor 0, last 2, kept 0

== a link ends as its input does; a link whose stream breaks is done
# half a frame, and a whole one
link 4096x4096 1 close:5 > Some(Truncated), floor 0, last 0, kept 0, partial 5
link 4096x4096 1 close > Some(Quit) closed, over
# it had read to the end of its input, and had answered all
link 4096x4096 1 room 40 twelve > Some(Ended) added.1 values.2.x x.0000000b, floor 0, last 12, kept 207, unwritten 167
";

#[test]
fn sessions_go_on_over_connections(rt: HostRuntime) -> Result<(), Fail> {
    follow::<Visits>(rt.alloc(), SCRIPTS)
}

#[test]
fn links_answer_as_connections_do(rt: HostRuntime) -> Result<(), Fail> {
    follow::<Visits>(rt.alloc(), LINKS)
}

#[test]
fn the_laws_of_connections_are_called() {
    laws::connections_are_one_session::<Scripted>();
    laws::numbers_are_asked_once::<Scripted>();
}
