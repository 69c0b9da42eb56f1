//! Commands answered by a scripted asker.

mod foreign;
pub mod talking;

use crate::askers::{OneLine, Scripted};
use chord_resp_serve::laws;
use chord_testkit::follow;
use std::test::Fail;
use talking::Talking;

/// Commands, the questions that they ask, and their answers.
const COMMANDS: &str = r"
== commands on sets
# each question once and in order
say sadd k b a b\n > :2| asked +b+a+b
say smembers k\n > *2|$1|a|$1|b| asked ?
say scard k\n > :2| asked ?
say sismember k a\n > :1| asked ?
say smismember k a x\n > *2|:1|:0| asked ?
say type k\n > +set| asked ?
say type l\n > +none| asked ?
say exists k l k\n > :2| asked ???
say srem k a x\n > :1| asked -a-x
say smembers k\n > *1|$1|b| asked ?

== commands that ask nothing
say ping\n > +PONG|
say echo hi\n > $2|hi|
say select 0\n > +OK|
say client getname\n > $-1|
say client id\n > :7|
say command\n > *0|
say command count\n > :32|
say config get x\n > *0|
say info\n > $5|a:b||
say time\n > *2|$10|1796123976|$6|343990|
say get k\n > -ERR unknown command 'get'|
say quit\n > Quit +OK|
# nothing behind QUIT is answered
say ping\n > Quit

== shutdown
say multi\n > -ERR transactions are not served|
say shutdown\n > -ERR transactions are not served|
say discard\n > +OK|
say shutdown abort\n > -ERR No shutdown in progress.|
say shutdown now later\n > -ERR syntax error|
# it has no answer
say shutdown NoSave now force save\n > Quit

== hello
say hello 2\n > *14|$6|server|$5|chord|$7|version|$5|7.0.0|$5|proto|:2|$2|id|:7|$4|mode|$10|standalone|$4|role|$6|master|$7|modules|*0|

== no secret is set
say auth default p\n > +OK|
say hello 2 auth u p setname n\n > -WRONGPASS invalid username-password pair or user is disabled.|
say multi\n > -ERR transactions are not served|
say auth default p\n > +OK|
say hello 2 auth default p setname n\n > *14|$6|server|$5|chord|$7|version|$5|7.0.0|$5|proto|:2|$2|id|:7|$4|mode|$10|standalone|$4|role|$6|master|$7|modules|*0|
say auth u p\n > -ERR transactions are not served|

== nothing of a transaction is done
# each of its commands has one answer, and b is the one member that is added
say multi\n > -ERR transactions are not served|
say sadd k a\n > -ERR transactions are not served|
say get\n > -ERR transactions are not served|
say multi\n > -ERR transactions are not served|
say exec\n > -EXECABORT Transaction discarded because of previous errors.|
say sadd k b\n > :1| asked +b
say multi\n > -ERR transactions are not served|
say srem k b\n > -ERR transactions are not served|
say discard\n > +OK|
say multi\n > -ERR transactions are not served|
say hello\n > *14|$6|server|$5|chord|$7|version|$5|7.0.0|$5|proto|:2|$2|id|:7|$4|mode|$10|standalone|$4|role|$6|master|$7|modules|*0|
say reset\n > +RESET|
say scard k\n > :1| asked ?
say exec\n > -ERR EXEC without MULTI|
say discard\n > -ERR DISCARD without MULTI|
say unwatch\n > +OK|
say multi\n > -ERR transactions are not served|
say quit\n > Quit +OK|
say ping\n > Quit

== a full store ends a command
trouble Full 2 > Set
say sadd k a b c\n > -OOM the node's store is full, 1 of 3 done| asked +a+b
# the next command is served at once
say ping\n > +PONG|
say scard k\n > :1| asked ?
say srem k a\n > :1| asked -a
say sadd k c\n > :1| asked +c

== no answer ends a command
trouble NoAnswer 1 > Set
say sadd k a b\n > -TRYAGAIN no answer in time, it may have acted, 0 of 2 done| asked +a
say scard k\n > :0| asked ?
say sadd k c\n > :1| asked +c

== no answer ends a command of one request
trouble NoAnswer 1 > Set
say scard k\n > -TRYAGAIN no answer in time, it may have acted| asked ?
say sadd k a\n > :1| asked +a

== memory ends the connection
# nothing is answered, and nothing more is asked
trouble Memory 2 > Set
say sadd k a b c\nping\n > Memory asked +a+b

== what is due is written before memory ends a connection
trouble Memory 2 > Set
say *3|$4|SADD|$1|k|$1|v|SMEMBERS k|PING| > Memory :1| asked +v?
";

/// Whole connections, over devices that move few bytes in a call, and fail after some calls. The
/// commands have 28, 12 and 6 bytes, and their answers 4, 11 and 7.
const CONNECTIONS: &str = r#"
== commands cut anywhere are answered as far as they are whole
serve cut 0..0 *3|$4|SADD|$1|k|$1|v|SMEMBERS k|PING| > Ended, asked 0, reads 1, writes 0
serve cut 1..27 *3|$4|SADD|$1|k|$1|v|SMEMBERS k|PING| > Truncated, asked 0, reads 2, writes 0
serve cut 28..28 *3|$4|SADD|$1|k|$1|v|SMEMBERS k|PING| > Ended :1|, asked 1, reads 2, writes 1
serve cut 29..39 *3|$4|SADD|$1|k|$1|v|SMEMBERS k|PING| > Truncated :1|, asked 1, reads 2, writes 1
serve cut 40..40 *3|$4|SADD|$1|k|$1|v|SMEMBERS k|PING| > Ended :1|*1|$1|v|, asked 2, reads 2, writes 1
serve cut 41..45 *3|$4|SADD|$1|k|$1|v|SMEMBERS k|PING| > Truncated :1|*1|$1|v|, asked 2, reads 2, writes 1
serve cut 46..46 *3|$4|SADD|$1|k|$1|v|SMEMBERS k|PING| > Ended :1|*1|$1|v|+PONG|, asked 2, reads 2, writes 1

== the answers to one read are one write of commands
serve reads 4096x100 *3|$4|SADD|$1|k|$1|v|SMEMBERS k|PING| > Ended :1|*1|$1|v|+PONG|, asked 2, reads 2, writes 1
serve reads 40x100 *3|$4|SADD|$1|k|$1|v|SMEMBERS k|PING| > Ended :1|*1|$1|v|+PONG|, asked 2, reads 3, writes 2
serve reads 28x100 *3|$4|SADD|$1|k|$1|v|SMEMBERS k|PING| > Ended :1|*1|$1|v|+PONG|, asked 2, reads 3, writes 2
serve reads 1x100 *3|$4|SADD|$1|k|$1|v|SMEMBERS k|PING| > Ended :1|*1|$1|v|+PONG|, asked 2, reads 47, writes 3

== a reader that fails ends the connection
# each read has 9 bytes: the fourth ends the first command, and the seventh finds the end
serve reads 9x0 *3|$4|SADD|$1|k|$1|v|SMEMBERS k|PING| > Read, asked 0, reads 0, writes 0
serve reads 9x3 *3|$4|SADD|$1|k|$1|v|SMEMBERS k|PING| > Read, asked 0, reads 3, writes 0
serve reads 9x4 *3|$4|SADD|$1|k|$1|v|SMEMBERS k|PING| > Read :1|, asked 1, reads 4, writes 1
serve reads 9x5 *3|$4|SADD|$1|k|$1|v|SMEMBERS k|PING| > Read :1|*1|$1|v|, asked 2, reads 5, writes 2
serve reads 9x6 *3|$4|SADD|$1|k|$1|v|SMEMBERS k|PING| > Read :1|*1|$1|v|+PONG|, asked 2, reads 6, writes 3
serve reads 9x7 *3|$4|SADD|$1|k|$1|v|SMEMBERS k|PING| > Ended :1|*1|$1|v|+PONG|, asked 2, reads 7, writes 3

== a writer that fails ends the connection
# each read has one command, or the last two
serve reads 28x100 writes 4096x0 *3|$4|SADD|$1|k|$1|v|SMEMBERS k|PING| > Write, asked 1, reads 1, writes 0
serve reads 28x100 writes 4096x1 *3|$4|SADD|$1|k|$1|v|SMEMBERS k|PING| > Write :1|, asked 2, reads 2, writes 1
serve reads 28x100 writes 4096x2 *3|$4|SADD|$1|k|$1|v|SMEMBERS k|PING| > Ended :1|*1|$1|v|+PONG|, asked 2, reads 3, writes 2

== reads are counted
serve reads 28x100 turns 0 *3|$4|SADD|$1|k|$1|v|SMEMBERS k|PING| > TurnsSpent, asked 0, reads 0, writes 0
serve reads 28x100 turns 1 *3|$4|SADD|$1|k|$1|v|SMEMBERS k|PING| > TurnsSpent :1|, asked 1, reads 1, writes 1
serve reads 28x100 turns 2 *3|$4|SADD|$1|k|$1|v|SMEMBERS k|PING| > TurnsSpent :1|*1|$1|v|+PONG|, asked 2, reads 2, writes 2
serve reads 28x100 turns 3 *3|$4|SADD|$1|k|$1|v|SMEMBERS k|PING| > Ended :1|*1|$1|v|+PONG|, asked 2, reads 3, writes 2

== bytes that are no command end the connection; nothing behind quit is read
serve PING|*x|PING| > Protocol +PONG|-ERR Protocol error: invalid multibulk length|, asked 0, reads 1, writes 1
serve *1|PING| > Protocol -ERR Protocol error: expected '$', got 'P'|, asked 0, reads 1, writes 1
serve *1|$4|PINGS| > Protocol -ERR Protocol error: invalid bulk length|, asked 0, reads 1, writes 1
serve *1048577| > Protocol -ERR Protocol error: invalid multibulk length|, asked 0, reads 1, writes 1
serve PING|SADD k "v|PING| > Protocol +PONG|-ERR Protocol error: unbalanced quotes in request|, asked 0, reads 1, writes 1
serve SADD k v|QUIT|SADD k w| > Quit :1|+OK|, asked 1, reads 1, writes 1

== a command of more than 1,022 members is refused, and the connection goes on
many 1022 > Ended :0|+PONG|, asked 1022, reads 3, writes 1
many 1023 > Ended -ERR too many arguments, at most 1,022 members|+PONG|, asked 0, reads 3, writes 1
many 5000 > Ended -ERR too many arguments, at most 1,022 members|+PONG|, asked 0, reads 10, writes 1

== the server tells its text and the connections number
serve INFO|CLIENT ID| > Ended $5|a:b||:7|, asked 0, reads 2, writes 1
"#;

/// Links: commands of each kind, with several requests, with one and with none, one that is
/// refused, INFO, and what is behind QUIT.
const LINKS: &str = r"
== a link answers as its commands are cut
link 1 1 SADD k a b|*2|$8|SMEMBERS|$1|k|GET k|SREM k a|INFO|SCARD k|QUIT|PING| > Some(Quit) :2|*2|$1|a|$1|b|-ERR unknown command 'GET'|:1|$5|a:b||:1|+OK|, asked 5, tries 5
link 7 1 SADD k a b|*2|$8|SMEMBERS|$1|k|GET k|SREM k a|INFO|SCARD k|QUIT|PING| > Some(Quit) :2|*2|$1|a|$1|b|-ERR unknown command 'GET'|:1|$5|a:b||:1|+OK|, asked 5, tries 5
link 4096 1 SADD k a b|*2|$8|SMEMBERS|$1|k|GET k|SREM k a|INFO|SCARD k|QUIT|PING| > Some(Quit) :2|*2|$1|a|$1|b|-ERR unknown command 'GET'|:1|$5|a:b||:1|+OK|, asked 5, tries 5

== a link of commands ends as its input does
link 4096 1 PING| > Some(Ended) +PONG|, asked 0, tries 0
link 4096 1 PING|PI > Some(Truncated) +PONG|, asked 0, tries 0
link 4096 1 PING|*x| > Some(Protocol) +PONG|-ERR Protocol error: invalid multibulk length|, asked 0, tries 0
link 4096 1 PING|POST / HTTP/1.1| > Some(Foreign) +PONG|, asked 0, tries 0

== a command waits for each of its requests; a command that waits too long has no answer
# each is asked once and tried thrice, and PING is behind
slow 4096 100 SADD k a b c|PING| > Some(Ended) :3|+PONG|, asked 3, tries 9
# its first request is tried once more, and no other is asked
slow 4096 1 SADD k a b c|PING| > Some(Ended) -TRYAGAIN no answer in time, it may have acted, 0 of 3 done|+PONG|, asked 1, tries 2
# its tries are those of all its requests: the first waits twice, and the second once
slow 4096 3 SADD k a b c|PING| > Some(Ended) -TRYAGAIN no answer in time, it may have acted, 1 of 3 done|+PONG|, asked 2, tries 5
";

/// Commands of each kind that takes memory.
pub const GROWING: &str = r"
== a connection writes whole answers
say SADD a-key-of-more-than-15-bytes b a| > :2| asked +b+a
say SREM a-key-of-more-than-15-bytes b c| > :1| asked -b-c
say SMEMBERS a-key-of-more-than-15-bytes| > *1|$1|a| asked ?
say SMISMEMBER a-key-of-more-than-15-bytes a b| > *2|:1|:0| asked ?
say EXISTS a-key-of-more-than-15-bytes l| > :1| asked ??
say GET a-key-of-more-than-15-bytes| > -ERR unknown command 'GET'|
say SADD k| > -ERR wrong number of arguments for 'sadd' command|
say INFO| > $5|a:b||
";

/// What a page makes a browser write, up to the body, which the page chose, and what `s_client` of
/// OpenSSL writes.
const FOREIGN: &str = r"
== a request of http acts on nothing
# the methods of HTTP, each in upper, lower and both cases
foreign GET / HTTP/1.1|Host: 127.0.0.1:6379|Content-Length: 19||SADD svc:web evil| > Foreign :1|*1|$1|v|+PONG|, asked 2
foreign get / HTTP/1.1|Host: 127.0.0.1:6379|Content-Length: 19||SADD svc:web evil| > Foreign :1|*1|$1|v|+PONG|, asked 2
foreign gEt / HTTP/1.1|Host: 127.0.0.1:6379|Content-Length: 19||SADD svc:web evil| > Foreign :1|*1|$1|v|+PONG|, asked 2
foreign HEAD / HTTP/1.1|Host: 127.0.0.1:6379|Content-Length: 19||SADD svc:web evil| > Foreign :1|*1|$1|v|+PONG|, asked 2
foreign head / HTTP/1.1|Host: 127.0.0.1:6379|Content-Length: 19||SADD svc:web evil| > Foreign :1|*1|$1|v|+PONG|, asked 2
foreign HeAd / HTTP/1.1|Host: 127.0.0.1:6379|Content-Length: 19||SADD svc:web evil| > Foreign :1|*1|$1|v|+PONG|, asked 2
foreign POST / HTTP/1.1|Host: 127.0.0.1:6379|Content-Length: 19||SADD svc:web evil| > Foreign :1|*1|$1|v|+PONG|, asked 2
foreign post / HTTP/1.1|Host: 127.0.0.1:6379|Content-Length: 19||SADD svc:web evil| > Foreign :1|*1|$1|v|+PONG|, asked 2
foreign pOST / HTTP/1.1|Host: 127.0.0.1:6379|Content-Length: 19||SADD svc:web evil| > Foreign :1|*1|$1|v|+PONG|, asked 2
foreign PUT / HTTP/1.1|Host: 127.0.0.1:6379|Content-Length: 19||SADD svc:web evil| > Foreign :1|*1|$1|v|+PONG|, asked 2
foreign put / HTTP/1.1|Host: 127.0.0.1:6379|Content-Length: 19||SADD svc:web evil| > Foreign :1|*1|$1|v|+PONG|, asked 2
foreign PuT / HTTP/1.1|Host: 127.0.0.1:6379|Content-Length: 19||SADD svc:web evil| > Foreign :1|*1|$1|v|+PONG|, asked 2
foreign DELETE / HTTP/1.1|Host: 127.0.0.1:6379|Content-Length: 19||SADD svc:web evil| > Foreign :1|*1|$1|v|+PONG|, asked 2
foreign delete / HTTP/1.1|Host: 127.0.0.1:6379|Content-Length: 19||SADD svc:web evil| > Foreign :1|*1|$1|v|+PONG|, asked 2
foreign DeLETE / HTTP/1.1|Host: 127.0.0.1:6379|Content-Length: 19||SADD svc:web evil| > Foreign :1|*1|$1|v|+PONG|, asked 2
foreign CONNECT / HTTP/1.1|Host: 127.0.0.1:6379|Content-Length: 19||SADD svc:web evil| > Foreign :1|*1|$1|v|+PONG|, asked 2
foreign connect / HTTP/1.1|Host: 127.0.0.1:6379|Content-Length: 19||SADD svc:web evil| > Foreign :1|*1|$1|v|+PONG|, asked 2
foreign cONNECT / HTTP/1.1|Host: 127.0.0.1:6379|Content-Length: 19||SADD svc:web evil| > Foreign :1|*1|$1|v|+PONG|, asked 2
foreign OPTIONS / HTTP/1.1|Host: 127.0.0.1:6379|Content-Length: 19||SADD svc:web evil| > Foreign :1|*1|$1|v|+PONG|, asked 2
foreign options / HTTP/1.1|Host: 127.0.0.1:6379|Content-Length: 19||SADD svc:web evil| > Foreign :1|*1|$1|v|+PONG|, asked 2
foreign OPTIOnS / HTTP/1.1|Host: 127.0.0.1:6379|Content-Length: 19||SADD svc:web evil| > Foreign :1|*1|$1|v|+PONG|, asked 2
foreign TRACE / HTTP/1.1|Host: 127.0.0.1:6379|Content-Length: 19||SADD svc:web evil| > Foreign :1|*1|$1|v|+PONG|, asked 2
foreign trace / HTTP/1.1|Host: 127.0.0.1:6379|Content-Length: 19||SADD svc:web evil| > Foreign :1|*1|$1|v|+PONG|, asked 2
foreign TraCE / HTTP/1.1|Host: 127.0.0.1:6379|Content-Length: 19||SADD svc:web evil| > Foreign :1|*1|$1|v|+PONG|, asked 2
foreign PATCH / HTTP/1.1|Host: 127.0.0.1:6379|Content-Length: 19||SADD svc:web evil| > Foreign :1|*1|$1|v|+PONG|, asked 2
foreign patch / HTTP/1.1|Host: 127.0.0.1:6379|Content-Length: 19||SADD svc:web evil| > Foreign :1|*1|$1|v|+PONG|, asked 2
foreign pATCh / HTTP/1.1|Host: 127.0.0.1:6379|Content-Length: 19||SADD svc:web evil| > Foreign :1|*1|$1|v|+PONG|, asked 2

== the head of a request acts on nothing
foreign HOST: 127.0.0.1||SADD svc:web evil| > Foreign :1|*1|$1|v|+PONG|, asked 2
# a command of the table whose last word is HTTP/1.1 is done, and the next line ends the connection
split 17 SADD / HTTP/1.1|HOST: 127.0.0.1||SADD svc:web evil| > Foreign :1|, asked 1

== a client hello acts on nothing
hello 1.2 > Foreign :1|*1|$1|v|+PONG|, asked 2
hello 1.3 > Foreign :1|*1|$1|v|+PONG|, asked 2
# the bytes from the ticket on would act, so it is the bytes before it that end a connection
hello-from 124 1.2 > Foreign :1|, asked 1
hello-from 203 1.3 > Foreign :1|, asked 1
";

#[test]
fn foreign_bytes_act_on_nothing(rt: HostRuntime) -> Result<(), Fail> {
    follow::<Talking>(rt.alloc(), FOREIGN)
}

#[test]
fn commands_are_answered(rt: HostRuntime) -> Result<(), Fail> {
    follow::<Talking>(rt.alloc(), COMMANDS)?;
    follow::<Talking>(rt.alloc(), GROWING)
}

#[test]
fn connections_are_answered(rt: HostRuntime) -> Result<(), Fail> {
    follow::<Talking>(rt.alloc(), CONNECTIONS)
}

#[test]
fn links_answer_commands(rt: HostRuntime) -> Result<(), Fail> {
    follow::<Talking>(rt.alloc(), LINKS)
}

#[test]
fn the_law_of_links_can_be_called(_rt: HostRuntime) {
    laws::links_are_answered::<Scripted, OneLine>();
}
