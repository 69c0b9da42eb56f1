//! Callers and clients: what they send and take, and what callers tell each other.

mod calling;
mod growths;

use calling::Calling;
use chord_testkit::follow;
use std::test::Fail;

/// What callers and clients answer alike.
const SCRIPTS: &str = "
== a window of one; a caller has its number
begin 7 1 > 7
submit abc > 7#1 floor 0 hops 255 abc+x; floor 0 waits 1
submit a > WindowFull

== a pending request goes out again
begin 7 1 > 7
resend 1 > Idle
submit abc > 7#1 floor 0 hops 255 abc+x; floor 0 waits 1
resend 1 > 7#1 floor 0 hops 255 abc+x

== a foreign reply is not taken
begin 7 1 > 7
submit abc > 7#1 floor 0 hops 255 abc+x; floor 0 waits 1
take 8#1 added > Foreign
take 7#2 added > Foreign
waits 1 > Yes

== a refused request takes no number; a client hears no foreign reply
begin 0 1 > 0
submit - > Bad(KeyEmpty)
submit a > 0#1 floor 0 hops 255 a+x; floor 0 waits 1
# another's reply, and replies to other numbers
take 1#1 added > Foreign
take 0#0 added > Foreign
take 0#2 added > Foreign
# a reply of another kind is not taken
take 0#1 values > Foreign
waits 1 > Yes

== a window of two
begin 0 2 > 0
submit a > 0#1 floor 0 hops 255 a+x; floor 0 waits 1
submit b > 0#2 floor 0 hops 255 b+x
take 0#2 added > Fresh
refusal c > Some(WindowFull)
submit c > WindowFull
take 0#1 added > Fresh; floor 2
refusal c > None
submit c > 0#3 floor 2 hops 255 c+x; floor 2 waits 3

== a client sends two requests; a client with a window of two; a window moves on
begin 7 2 > 7
resend 1 > Idle
submit a > 7#1 floor 0 hops 255 a+x; floor 0 waits 1
submit b > 7#2 floor 0 hops 255 b+x
# the second reply is taken, and known when it comes again
take 7#2 added > Fresh
take 7#2 added > Known
refusal c > Some(WindowFull)
resend 1 > 7#1 floor 0 hops 255 a+x
take 7#1 added > Fresh; floor 2
refusal c > None
submit c > 7#3 floor 2 hops 255 c+x; floor 2 waits 3
take 7#1 added > Known

== a client gives a request up
begin 7 2 > 7
submit a > 7#1 floor 0 hops 255 a+x; floor 0 waits 1
submit b > 7#2 floor 0 hops 255 b+x
give-up 1 > GivenUp; floor 1 waits 2
take 7#1 added > Known

== a client turns round in its window
begin 0 3 > 0
submit a > 0#1 floor 0 hops 255 a+x; floor 0 waits 1
submit a > 0#2 floor 0 hops 255 a+x
turns 60 > Turned; floor 59 waits 60
";

/// What callers keep beside.
const CALLERS: &str = "
== a reply is taken once
begin 7 1 > 7
submit abc > 7#1 floor 0 hops 255 abc+x; floor 0 waits 1
take 7#1 added > Fresh; floor 1
take 7#1 added > Known
mine > mine, 7#1 abc+x

== a request is given up
begin 7 1 > 7
submit abc > 7#1 floor 0 hops 255 abc+x; floor 0 waits 1
give-up 1 > GivenUp; floor 1
waits 1 > No
take 7#1 added > Known
mine > mine

== two numbers were submitted; a taken call is found by its number
begin 7 2 > 7
submit a > 7#1 floor 0 hops 255 a+x; floor 0 waits 1
submit b > 7#2 floor 0 hops 255 b+x
take 7#2 added > Fresh
submitted 0 1 2 3 > submitted No Yes Yes No
taken 1 2 3 > taken None 7#2 b+x None

== notes are shown and met
begin 1 2 > 1
submit a > 1#1 floor 0 hops 255 a+x; floor 0 waits 1
submit b > 1#2 floor 0 hops 255 b+x
take 1#1 added > Fresh; floor 1 waits 2
take 1#2 present > Fresh; floor 2
# a note has all calls that its caller knows, by number
note > of 1, 1#1 a+x, 1#2 b+x present
begin 0 1 > 0; floor 0
submit a > 0#1 floor 0 hops 255 a+x; floor 0 waits 1
take 0#1 added > Fresh; floor 1
# who meets a note twice learns each of its calls once
meet > Met
meet > Met
told > told, 1#1 a+x, 1#2 b+x present
# what a caller is told of is not among the replies that it took
mine > mine, 0#1 a+x

== a refused growth leaves the caller
begin 0 16 > 0
submit a > 0#1 floor 0 hops 255 a+x; floor 0 waits 1
submit a > 0#2 floor 0 hops 255 a+x
submit a > 0#3 floor 0 hops 255 a+x
submit a > 0#4 floor 0 hops 255 a+x
submit a > 0#5 floor 0 hops 255 a+x
submit a > 0#6 floor 0 hops 255 a+x
submit a > 0#7 floor 0 hops 255 a+x
submit a > 0#8 floor 0 hops 255 a+x
submit a > 0#9 floor 0 hops 255 a+x
# each call is sent again, and then answered; `counts` are the calls that it took and was told of
resend 1 > 0#1 floor 0 hops 255 a+x
take 0#1 added > Fresh; floor 1 waits 2
counts > 1 0
resend 2 > 0#2 floor 1 hops 255 a+x
take 0#2 added > Fresh; floor 2 waits 3
counts > 2 0
resend 3 > 0#3 floor 2 hops 255 a+x
take 0#3 added > Fresh; floor 3 waits 4
counts > 3 0
resend 4 > 0#4 floor 3 hops 255 a+x
take 0#4 added > Fresh; floor 4 waits 5
counts > 4 0
resend 5 > 0#5 floor 4 hops 255 a+x
take 0#5 added > Fresh; floor 5 waits 6
counts > 5 0
resend 6 > 0#6 floor 5 hops 255 a+x
take 0#6 added > Fresh; floor 6 waits 7
counts > 6 0
resend 7 > 0#7 floor 6 hops 255 a+x
take 0#7 added > Fresh; floor 7 waits 8
counts > 7 0
resend 8 > 0#8 floor 7 hops 255 a+x
take 0#8 added > Fresh; floor 8 waits 9
counts > 8 0
resend 9 > 0#9 floor 8 hops 255 a+x
take 0#9 added > Fresh; floor 9
counts > 9 0
note > of 0, 0#1 a+x, 0#2 a+x, 0#3 a+x, 0#4 a+x, 0#5 a+x, 0#6 a+x, 0#7 a+x, 0#8 a+x, 0#9 a+x
# another caller learns them from the note
begin 1 1 > 1; floor 0
meet > Met
told > told, 0#1 a+x, 0#2 a+x, 0#3 a+x, 0#4 a+x, 0#5 a+x, 0#6 a+x, 0#7 a+x, 0#8 a+x, 0#9 a+x
";

#[test]
fn callers_answer(rt: HostRuntime) -> Result<(), Fail> {
    follow::<Calling<false>>(rt.alloc(), SCRIPTS)?;
    follow::<Calling<false>>(rt.alloc(), CALLERS)
}

#[test]
fn clients_answer_as_callers_do(rt: HostRuntime) -> Result<(), Fail> {
    follow::<Calling<true>>(rt.alloc(), SCRIPTS)
}
