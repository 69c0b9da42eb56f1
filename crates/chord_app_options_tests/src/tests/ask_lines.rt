//! The command line of `ask`.

use crate::tests::lines::follow_lines;
use std::test::Fail;

/// What each line says; of the version and of tries only what is not usual, 2 and 3.
const SAID: &str = "
# the request stands anywhere, also one with a dash
chord ask --port 7001 insert a b > port 7001, window 1, asks a+b
chord ask insert a b --port 7001 > port 7001, window 1, asks a+b
chord ask insert --port 7001 a b > port 7001, window 1, asks a+b
chord ask insert a -5 --port 7001 > port 7001, window 1, asks a+x:2d35
chord ask --port 7001 -- insert a -b > port 7001, window 1, asks a+x:2d62
chord ask insert x:61 x:78 --port 1 > port 1, window 1, asks a+x
# one request is in flight, and 16 where a copy is asked, but in version 1
chord ask --port 7001 > port 7001, window 1
chord ask --port 7001 --quiet > port 7001, window 16
chord ask --port 7001 --quiet --window 3 > port 7001, window 3
chord ask --port 7001 --quiet --protocol 1 > port 7001, window 1, version 1
# a session is wanted unless the line says that none is
chord ask --port 7001 --no-session > port 7001, window 1, no session
# each number has its limits
chord ask --port 0 > refused 2
chord ask --port 65536 > refused 2
chord ask --port 1 --window 0 > refused 2
chord ask --port 1 --window 17 > refused 2
chord ask --port 1 --protocol 3 > refused 2
chord ask --port 1 --tries 1001 > refused 2
chord ask --port 1 --tries x > refused 2
# version 1 has no window; a port is wanted; a word with a dash stands behind --
chord ask --port 1 --protocol 1 --window 2 > refused 2
chord ask --port 1 --quiet --protocol 1 --window 2 > refused 2
chord ask insert a b > refused 2
chord ask --port 1 insert a -b > refused 2
";

const FAULTS: &str = "
usage chord ask [OPTIONS] --port <N> [REQUEST]... > Set
# each range is told in the same words, also to a number below 0
fault chord ask --port x insert a b > 2 invalid value 'x' for '--port <N>': a number from 1 to 65535
fault chord ask --port -1 insert a b > 2 invalid value '-1' for '--port <N>': a number from 1 to 65535
fault chord ask --port 1 --window 17 > 2 invalid value '17' for '--window <W>': a number from 1 to 16
fault chord ask --port 1 --protocol 1 --window 2 > 2 in version 1 of the protocol the window is 1
# of a request it is told which word is wrong, and what may stand there
fault chord ask --port 1 add a x > 2 word 1 of the request is not insert, retrieve or remove
fault chord ask --port 1 retrieve > 2 word 2 of the request is missing: a key
fault chord ask --port 1 insert a > 2 word 3 of the request is missing: a value
fault chord ask --port 1 retrieve a x > 2 word 3 of the request is too much: a retrieve has only a key
fault chord ask --port 1 remove a x y > 2 word 4 of the request is too much: a value is the last word
fault chord ask --port 1 retrieve x:0g > 2 word 2 of the request is no key: behind x: come pairs of hexadecimal digits
fault chord ask --port 1 insert a x:0 > 2 word 3 of the request is no value: behind x: come pairs of hexadecimal digits
fault chord ask --port 1 retrieve x:- > 2 word 2 of the request is no key: a key has 1 to 255 bytes
";

#[test]
fn lines_of_ask(rt: HostRuntime) -> Result<(), Fail> {
    follow_lines(&rt, SAID)?;
    follow_lines(&rt, FAULTS)
}
