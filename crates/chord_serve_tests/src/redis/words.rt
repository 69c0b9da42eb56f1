//! What clients write, and what they are answered.

mod commands;
mod putting;
pub mod spelling;

use chord_resp::laws;
use chord_testkit::follow;
use spelling::Spelling;
use std::test::Fail;

/// Streams and the commands that they spell.
const READ: &str = r#"
== reads what clients write
read > Between
read *1|$4|PING| > PING,; Between
read *2|$4|ECHO|$0|| > ECHO,,; Between
read *2|$3|a||$2||| > a|,|,; Between
read *0|*1|$1|a| > a,; Between
read *1|$10|abcdefghij| > abcdefghij,; Between
read *10|$1|a|$1|b|$1|c|$1|d|$1|e|$1|f|$1|g|$1|h|$1|i|$1|j| > a,b,c,d,e,f,g,h,i,j,; Between
read *01|$001|a| > a,; Between
read ping| > ping,; Between
read ping\n > ping,; Between
read \x20 sadd  k m\x09 |b\n > sadd,k,m,;b,; Between
read |\n  \n > Between
read a\rb| > a,b,; Between
read *1|$2|a > Within
read *1048576|$1|a| > Within
read pin > Within
read sadd k HTTP/1.1| > sadd,k,HTTP/1.1,; Between
read get / http/1.1| > get,/,http/1.1,; Between
read get / x HTTP/1.1| > get,/,x,HTTP/1.1,; Between
read get HTTP/1.1| > get,HTTP/1.1,; Between
read get / HTTP| > get,/,HTTP,; Between
read posts\nhost\na post\na host:\n > posts,;host,;a,post,;a,host:,; Between
read *3|$4|POST|$5|Host:|$8|HTTP/1.1| > POST,Host:,HTTP/1.1,; Between
read *1|$1|\x00| > \x00,; Between

== reads quotes
read SADD a "x y"| > SADD,a,x y,; Between
read "sadd" a'b ' c"d "\n > sadd,ab ,cd ,; Between
read 'a b' ''\x09""\r"c"| > a b,,,c,; Between
# each byte that stands for another one, and those that stand for themselves
read "\\n\\r\\t\\b\\a\\"\\\\\\q\\'"| > \n\r\x09\x08\x07"\\q',; Between
read "\\x41\\x7e\\xfF\\xAfg"| > A~\xff\xafg,; Between
# no two digits follow
read "\\xg1\\x4\\x4g\\x\\x41"| > xg1x4x4gxA,; Between
# in single quotes a `\` is itself, unless a `'` follows
read 'a\\'b\\n\\\\c"'| > a'b\\n\\\\c",; Between
# outside of quotes it is itself, and vertical tabs and form feeds part no words
read a\\n\x0b\x0c \x0b\x0cb "c"\x0b| > a\\n\x0b\x0c,b,c,; Between
read "POST"| > Foreign
read "get /" x HTTP/1.1| > Foreign
read 'get / HTTP/1.1'| > get / HTTP/1.1,; Between

== quotes that are not closed, or have something behind them
read ping|"| > ping,; Unbalanced
read '\n > Unbalanced
read "a| > Unbalanced
read 'a\\'| > Unbalanced
read "a\\"| > Unbalanced
read "a\\| > Unbalanced
read "a\\x| > Unbalanced
read "a\\x4| > Unbalanced
read 'a\\| > Unbalanced
read "a"b| > Unbalanced
read ''b| > Unbalanced
read a"b"c| > Unbalanced
read "a""b"| > Unbalanced
# before what a line of HTTP is refused for
read POST '| > Unbalanced

== ends at the first error
read *x| > BadCount
read *| > BadCount
read *-1| > BadCount
read *1048577| > BadCount
read *1\n > BadCount
read *1\r\r > BadCount
read *1|:1| > NoDollar(58)
read a\n*1|$+1| > a,; BadLength
read *1|$1048577| > BadLength
read *1|$| > BadLength
read *1|$1|abc| > BadLength
read *1|$1|a\r\r > BadLength
read *000000000000000000000000000000001| > TooLong
read a\n\x00 > a,; Foreign
read ab\x00cd\n > Foreign
read POST\n > Foreign
read a\n  poSt / x\n > a,; Foreign
read Host: a| > Foreign
read HOST:a b c d| > Foreign
read GET / HTTP/1.1| > Foreign
read PRI * HTTP/2.0| > Foreign
read \x20get  / HTTP/  | > Foreign
read a\nx y HTTP/1.1\nb\n > a,; Foreign

== three commands cut after each byte
# words have line ends and a `*` in them
read *3|$4|SADD|$1|k|$3|*||smembers k|*1|$4|PING| > SADD,k,*|,;smembers,k,;PING,; Between

== words above 4096 bytes are kept by their length; an inline command has at most 65536 bytes; a line of http has words of any length
once *1|$4096|{4096}| > <whole 4096>,; Between
once *1|$4097|{4097}| > <long 4097>,; Between
once {4097}| > <long 4097>,; Between
# the `\r` is one of them
once {65535}| > <long 65535>,; Between
once {65536}| > TooLong
# such a word is looked at before it is kept by its length: in a header, a version, and the last of
# three words
once Host:{5000}| > Foreign
once GET / HTTP/{5000}| > Foreign
once GET HTTP/1.1 HTTP/1.1{5000}| > Foreign

== an inline command has at most 1024 words
words 1024 > a,a,a,a,a,a,a,a,a,a,a,a,a,a,a,a,<1024 words>; Between
words 1025 > TooLong

== a longer command is read to its end, and the next one behind it
array 1024 > a,a,a,a,a,a,a,a,a,a,a,a,a,a,a,a,<1024 words>;PING,; Between
array 1025 > a,a,a,a,a,a,a,a,a,a,a,a,a,a,a,a,<1025 words>;PING,; Between
# no more words of it are known
array 3000 > a,a,a,a,a,a,a,a,a,a,a,a,a,a,a,a,<1025 words>;PING,; Between
begin 3000 > Fed; left 21004
next > Within; left 0
kept > 1024

== an error stays
feed *1|:ping| > Fed; left 11
# nothing behind the error is read, and the same call answers it again
next > NoDollar(58); left 7
next > NoDollar(58)

== what is kept of a command
kept > 0
feed sadd k > Fed; left 6
kept > 6
next > Within; left 0
kept > 6

== what is kept of an array
feed *3|$4|SADD|$1|k|$4|ab > Fed; left 27
kept > 27
next > Within; left 0
kept > 7
feed cd|PING| > Fed; left 10
kept > 17
next > SADD,k,abcd,;PING,; Between; left 0
kept > 0

== a long word is not kept
feed *3|$4|SADD|$4097|{4097}| > Fed; left 4120
next > Within; left 0
kept > 4

== words are taken out
take *2|$3|get|$1|k| > get,k,;
"#;

/// A command of words and an inline one, of a long word.
pub const GROWING: &str = r"
== a command of words
feed *2|$20|aaaaaaaaaaaaaaaaaaaa|$1|b| > Fed; left 38
next > aaaaaaaaaaaaaaaaaaaa,b,; Between; left 0

== an inline command
feed aaaaaaaaaaaaaaaaaaaa b| > Fed; left 24
next > aaaaaaaaaaaaaaaaaaaa,b,; Between; left 0
";

/// The table of commands.
const CALLED: &str = r"
== commands on sets
call SADD k a\n > add k a
call sadd k b a b\n > add k b a b
call SReM k a\n > remove k a
call smembers k\n > members k
call scard k\n > count k
call sismember k a\n > has k a
call smismember k a b\n > has each k a b
call exists k l\n > exist k l
call type k\n > type k
call sadd k\n > ERR wrong number of arguments for 'sadd' command
call Scard\n > ERR wrong number of arguments for 'scard' command
call scard k l\n > ERR wrong number of arguments for 'scard' command
call exists\n > ERR wrong number of arguments for 'exists' command
call sismember k a b\n > ERR wrong number of arguments for 'sismember' command

== other commands
call PING\n > Ping
call ping hello\n > echo hello
call ping a b\n > ERR wrong number of arguments for 'ping' command
call echo hello\n > echo hello
call echo\n > ERR wrong number of arguments for 'echo' command
call select 0\n > Accept
call select 1\n > ERR DB index is out of range
call client setname x\n > Accept
call *3|$6|client|$7|setname|$3|a b| > ERR Client names cannot contain spaces, newlines or special characters.
call client setname x y\n > ERR wrong number of arguments for 'client' command
call client SETINFO lib-name x\n > Accept
call client no-evict on\n > Accept
call client no-touch on\n > Accept
call client setinfo x\n > ERR wrong number of arguments for 'client' command
call client getname\n > Name
call client id\n > Number
call CLIENT LIST\n > ERR unknown subcommand 'LIST'. Try CLIENT HELP.
call CLIENT kill x\n > ERR unknown subcommand 'kill'. Try CLIENT HELP.
call client\n > ERR wrong number of arguments for 'client' command
call hello\n > Hello
call hello 2\n > Hello
call hello 3\n > NOPROTO unsupported protocol version
call hello 3 auth u p\n > NOPROTO unsupported protocol version
call hello 2 AUTH default p\n > Hello
call hello 2 setname n\n > Hello
call hello 2 setname a setname b auth default p\n > Hello
call *4|$5|hello|$1|2|$7|setname|$0|| > Hello
call hello 2 setname {4097}\n > Hello
call hello 2 auth u p\n > WRONGPASS invalid username-password pair or user is disabled.
call hello 2 auth Default p setname n\n > WRONGPASS invalid username-password pair or user is disabled.
call hello 2 setname n auth u p\n > WRONGPASS invalid username-password pair or user is disabled.
call hello 2 AUTH default\n > ERR Syntax error in HELLO option 'AUTH'
call hello 2 AUTH\n > ERR Syntax error in HELLO option 'AUTH'
call hello 2 setname\n > ERR Syntax error in HELLO option 'setname'
call hello 2 foo auth u p\n > ERR Syntax error in HELLO option 'foo'
call hello 2 auth default p foo\n > ERR Syntax error in HELLO option 'foo'
call *4|$5|hello|$1|2|$7|setname|$3|a b| > ERR Client names cannot contain spaces, newlines or special characters.
call hello 2 setname a\x7f\n > ERR Client names cannot contain spaces, newlines or special characters.
call FLUSHALL\n > ERR 'flushall' is not served
call expire k 10\n > ERR 'expire' is not served
call move k 1\n > ERR 'move' is not served
call spop k\n > ERR 'spop' is not served
call smove k l a\n > ERR 'smove' is not served
call memory usage k\n > ERR 'memory' is not served
call time\n > Time
call time 0\n > ERR wrong number of arguments for 'time' command
call auth default p\n > Auth
call auth u p\n > WRONGPASS invalid username-password pair or user is disabled.
call auth p\n > ERR AUTH <password> called without any password configured for the default user. Are you sure your configuration is correct?
call auth a b c\n > ERR syntax error
call auth\n > ERR wrong number of arguments for 'auth' command
call command\n > Nothing
call command docs ping\n > Nothing
call command info ping echo\n > Nothing
call command count\n > Commands
call command list\n > ERR unknown subcommand 'list'. Try COMMAND HELP.
call config get save\n > Nothing
call CONFIG SET save x\n > ERR unknown subcommand 'SET'. Try CONFIG HELP.
call config\n > ERR wrong number of arguments for 'config' command
# at most 128 bytes are shown
call client {129}\n > ERR unknown subcommand 'xxxxxxxxxxxxxxxxxxxxxxxxxxxxxxxxxxxxxxxxxxxxxxxxxxxxxxxxxxxxxxxxxxxxxxxxxxxxxxxxxxxxxxxxxxxxxxxxxxxxxxxxxxxxxxxxxxxxxxxxxxxxxxxx'. Try CLIENT HELP.
call info\n > Info
call info server\n > Info
call quit\n > Quit
call reset\n > Reset
call MULTI\n > Multi
call exec\n > Exec
call discard\n > Discard
call watch k l\n > ERR transactions are not served
call watch\n > ERR wrong number of arguments for 'watch' command
call unwatch\n > Accept
call multi 1\n > ERR wrong number of arguments for 'multi' command
call get k\n > ERR unknown command 'get'
call sad\x01d\x7f k\n > ERR unknown command 'sad?d?'

== lengths of keys and members
# a key has 1 to 255 bytes, also as the second of several, and a member at most 4,096
call *2|$5|scard|$0|| > ERR key must have 1 to 255 bytes
call scard {255}\n > count <whole 255>
call scard {256}\n > ERR key must have 1 to 255 bytes
call exists a {256}\n > ERR key must have 1 to 255 bytes
call sadd k {4096}\n > add k <whole 4096>
call sadd k a {4097}\n > ERR member is longer than 4096 bytes
# such a word is not echoed, and such a name is not shown
call echo {4097}\n > ERR word is longer than 4096 bytes
call {4097}\n > ERR unknown command ''

== verbs of words; words that are texts
verb sMembers > Smembers smembers
verb <4097> > None
name SADD > Sadd sadd
name sad > None
# a key follows, and nothing else
takes smembers 1 > Yes
takes smembers 2 > No
text iNFo info > Yes
text ping info > No
text inf info > No
text <4097> info > No
";

/// Answers, each behind another one.
pub const ANSWERED: &str = r"
== answers as bytes
simple OK > +OK|+OK|
error ERR no > +OK|-ERR no|
integer 0 > +OK|:0|
integer 18446744073709551615 > +OK|:18446744073709551615|
null > +OK|$-1|
bulk > +OK|$0||
bulk a|b > +OK|$4|a|b|
bulk abc > +OK|$3|abc|
count 14 > +OK|*14|
bulks a bc > +OK|*2|$1|a|$2|bc|
bulks a b > +OK|*2|$1|a|$1|b|
bulks > +OK|*0|
integers 1 0 > +OK|*2|:1|:0|

== errors of the ring; errors of the protocol
refusal SetFull 2/3 > +OK|-ERR set is full: it has 1000 members, 2 of 3 done|
# a single member
refusal SetFull 0/1 > +OK|-ERR set is full: it has 1000 members|
refusal StoreFull 2/3 > +OK|-OOM the node's store is full, 2 of 3 done|
refusal NoAnswer 0/1 > +OK|-TRYAGAIN no answer in time, it may have acted|
refusal BadCount > +OK|-ERR Protocol error: invalid multibulk length|
refusal BadLength > +OK|-ERR Protocol error: invalid bulk length|
refusal TooLong > +OK|-ERR Protocol error: too big inline request|
refusal Unbalanced > +OK|-ERR Protocol error: unbalanced quotes in request|
refusal NoDollar : > +OK|-ERR Protocol error: expected '$', got ':'|
# a byte that can't be printed
refusal NoDollar \r > +OK|-ERR Protocol error: expected '$', got '?'|
# the name is in lower case
refusal WrongNumber > +OK|-ERR wrong number of arguments for 'sadd' command|
";

#[test]
fn streams_spell_commands(rt: HostRuntime) -> Result<(), Fail> {
    follow::<Spelling>(rt.alloc(), READ)?;
    follow::<Spelling>(rt.alloc(), GROWING)
}

#[test]
fn words_call_for_commands(rt: HostRuntime) -> Result<(), Fail> {
    follow::<Spelling>(rt.alloc(), CALLED)
}

#[test]
fn answers_are_bytes(rt: HostRuntime) -> Result<(), Fail> {
    follow::<Spelling>(rt.alloc(), ANSWERED)
}

#[test]
fn laws_can_be_called(_rt: HostRuntime) {
    laws::cuts_do_not_matter();
    laws::arrays_are_read();
    laws::long_arrays_are_read();
    laws::long_commands_are_refused();
    laws::little_is_kept();
    laws::inline_commands_are_read();
    laws::lines_are_read();
    laws::lines_with_a_byte_0_are_refused();
}
