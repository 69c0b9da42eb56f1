//! The commands `ask` and `load`, over loopback: one connection after another, and in sessions,
//! which go on where connections are lost. Answers are frames as docs/protocol.md has them.

use crate::asking::serving::follow_clients;
use crate::checks::check;
use chord_app_ask::Tokens;
use std::test::Fail;

const ALONE: &str = "
# nobody listens
at > Set
lines insert abc x| > Connect ConnectionRefused
load retrieve 5 > Connect ConnectionRefused
client 1 1 1 > Set
request retrieve/abc > Connect ConnectionRefused
# one request
at answer 0000000b0181000000000000000101 > Set
request insert/a b/ > Done: added|
# an insert is lost if its connection ends, and not sent again; the next goes over another one
client 2 1 3 > Set
at answer - answer 0000000b0181000000000000000101 > Set
lines insert abc x|insert abc y| > Ok(Unanswered(1)): lost|added|
at answer - > Set
lines remove abc x| > Ok(Unanswered(1)): lost|
# a request whose connection finds no caller was not done, and is not asked again
at answer 0000000b01ff00000000000000000f > Set
lines insert abc x| > Ok(Unanswered(1)): callersspent|
lines retrieve abc| > Ok(Unanswered(1)): callersspent|
# a line has 16,384 bytes at most; the request before a longer one is asked
at answer 0000000b0181000000000000000101 > Set
lines {16384a}| > Err(Request { line: 1, why: NoOperation })
lines {16385a}| > Err(Request { line: 1, why: LineLong })
lines insert abc x|{16385a}| > Err(Request { line: 2, why: LineLong }): added|
# a retrieve whose connection ended goes over another one, until it has no tries left
at answer - answer - answer 0000000e0182000000000000000100000000 > Set
lines retrieve abc| > Done: values 0|
client 2 1 2 > Set
at answer - answer - > Set
lines retrieve abc| > Ok(Unanswered(1)): lost|
# a wrong kind of answer ends the connection, and so does a fault
client 2 1 1 > Set
at answer 0000000b0181000000000000000101 > Set
lines retrieve abc| > Ok(Unanswered(1)): lost|
at answer 0000000b01ff000000000000000109 > Set
lines retrieve abc| > Ok(Unanswered(1)): fault 9|
";

const IN_SESSIONS: &str = "
client 2 2 3 session > Set
# each request acts once, over however many connections; at its end the session is closed
at serve 0 > Set
lines insert abc x|insert abc x|retrieve abc| > Done: added|present|values 1 78|; kept 0, closed 1, asked 3
# the opened comes, and no answer
at serve 30 serve 0 > Set
lines insert abc x|insert abc x|retrieve abc| > Done: added|present|values 1 78|; kept 0, closed 1, asked 3
# half of the opened
at serve 30 serve 12 serve 0 > Set
lines insert abc x|insert abc x|retrieve abc| > Done: added|present|values 1 78|; kept 0, closed 1, asked 3
# an answer and a half
at serve 52 serve 0 > Set
lines insert abc x|insert abc x|retrieve abc| > Done: added|present|values 1 78|; kept 0, closed 1, asked 3
at serve 45 serve 45 serve 45 serve 52 serve 0 > Set
lines insert abc x|insert abc x|retrieve abc| > Done: added|present|values 1 78|; kept 0, closed 1, asked 3
# requests are lost with a session that is not kept, and the next ones go into a new one
at serve 30 forget serve 0 > Set
lines insert abc x|insert abc x|insert abc y| > Ok(Unanswered(2)): lost|lost|added|; kept 0, closed 1, asked 1
# a request is lost where three tries to resume failed
at serve 30 answer - answer - answer - > Set
lines insert abc x| > Ok(Unanswered(1)): lost|; kept 1, closed 0, asked 0
# a server that does not know an open ends the connection, refuses it, or writes something else
at answer - > Set
lines insert abc x| > NoSession
at answer 0000000b01ff000000000000000010 > Set
lines insert abc x| > NoSession
at answer 0000000b01ff000000000000000003 > Set
lines insert abc x| > NoSession
# HTTP/1.1 400 Bad Request
at answer 485454502f312e3120343030204261642052657175657374 > Set
lines insert abc x| > NoSession
# there is no caller for the session
at answer 0000000b01ff00000000000000000f > Set
lines insert abc x|retrieve abc| > Ok(Unanswered(2)): callersspent|callersspent|
# a load whose connections are cut: each request acts once, and no insert finds its own value there
at often > Set
load insert 60 > Done: requests 60 faults 0 resumed often doubled 0; kept 0, closed 1, asked 60
load retrieve 60 > Done: requests 60 faults 0 resumed often; kept 0, closed 1, asked 60
";

/// The commands `ask`, `load` and `ring` from their words on.
const STARTED: &str = "
# commands begin a session: up to its token
at hear 22 0000000b01ff000000000000000010 > Set
start ask insert a x > NoSession; heard 00000023020400000000000000000000000000000000
start load --requests 1 > NoSession; heard 00000023020400000000000000000000000000000000
# ask sends its request in version 2, or in version 1 if the words say so
at hear 27 0000000b0181000000000000000101 > Set
start ask --no-session insert a x > Done; heard 000000170201000000000000000100000000000000000161000178
at hear 19 0000000b0181000000000000000101 > Set
start ask --protocol 1 insert a x > Done; heard 0000000f010100000000000000010161000178
# load sends as many requests as the words say, the first one for `key 0`
at hear 28 0000000e0182000000000000000100000000 > Set
start load --no-session --requests 1 > Done; heard 00000018020200000000000000010000000000000000056b65792030
# dump asks for the first page: GET /pairs?limit=1000 HTTP/1.1, which is empty
at hear 32 485454502f312e3120323030204f4b0d0a636f6e74656e742d747970653a20746578742f706c61696e0d0a63686f72642d706167653a2068656c640d0a636f6e74656e742d6c656e6774683a20300d0a0d0a > Set
start ring dump > Done; heard 474554202f70616972733f6c696d69743d3130303020485454502f312e310d0a
# nobody listens
at > Set
start ask retrieve a > Connect ConnectionRefused
start ask --quiet > Connect ConnectionRefused
start load --requests 1 > Connect ConnectionRefused
start ring > Connect ConnectionRefused
start ring --watch > Connect ConnectionRefused
start ring leave 3 > Connect ConnectionRefused
start ring rescue 3 > Connect ConnectionRefused
start ring dump > Connect ConnectionRefused
start ring restore > Connect ConnectionRefused
start ring stop > Connect ConnectionRefused
# the fault of wrong words is told, and nobody is asked
start ask --window 17 > BadCommandLine
start ask --protocol 1 --window 2 > BadCommandLine
start ask insert a > BadCommandLine
start ask add a x > BadCommandLine
start ask --quiet insert a x > BadCommandLine
start ask --quiet --window 17 > BadCommandLine
start load --keys 0 > BadCommandLine
start load --drop 5 --no-session > BadCommandLine
start ring leave x > BadCommandLine
";

#[test]
fn clients_alone_and_in_sessions(rt: HostRuntime) -> Result<(), Fail> {
    follow_clients(&rt, &rt, ALONE)?;
    follow_clients(&rt, &rt, IN_SESSIONS)?;
    follow_clients(&rt, &rt, STARTED)
}

/// Each token is another one, also those of another run.
#[test]
fn tokens_differ(rt: HostRuntime) {
    let one = Tokens::new(&rt).expect(&rt, "random bytes");
    let other = Tokens::new(&rt).expect(&rt, "random bytes");
    check!(&rt; one.token(0) == one.token(0));
    check!(&rt; one.token(0) != one.token(1));
    check!(&rt; one.token(0) != other.token(0));
    check!(&rt; one.word(0, 0) != one.word(0, 1));
}
