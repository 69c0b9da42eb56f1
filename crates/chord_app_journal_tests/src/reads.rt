//! What is read of files: whole ones, torn ones, those of a Redis, and those that are none.

use crate::reading::Reading;
use chord_testkit::follow;
use std::test::Fail;

const JOURNALS: &str = r"
== changes are read in their order, however the file is cut into pieces
command SADD abc x > Added; 30 bytes
command SREM abc x > Added; 60 bytes
command SADD b yz > Added; 89 bytes
load 1 > Read +abc:x -abc:x +b:yz, Between 89
load 7 > Read +abc:x -abc:x +b:yz, Between 89
load 100 > Read +abc:x -abc:x +b:yz, Between 89
scan > Whole 89 torn 0

== an empty file has no change
load 5 > Read, Between 0
scan > Whole 0 torn 0

== any bytes are read
command SADD \r\n \0\s\n > Added; 31 bytes
load 3 > Read +\r\n:\0\s\n, Between 31

== what a Redis's append-only file has beside changes is no change
command SELECT 0 > Added; 23 bytes
text #TS:1628217470\r\n > Added; 39 bytes
command sadd abc x y > Added; 76 bytes
load 4 > Read +abc:x:y, Between 76
scan > Whole 76 torn 0

== a command may have more members than a client may write
many SADD abc 3000 > Added; 31916 bytes
command SREM abc m7 > Added; 31947 bytes
count 1000 > 3001 to -abc:m7, Between 31947
scan > Whole 31947 torn 0
# but the whole of it counts, or nothing
cut 31915 > Cut; 31915 bytes
scan > Whole 0 torn 31915
cut 20000 > Cut; 20000 bytes
scan > Whole 0 torn 20000
";

#[test]
fn journals_are_read(rt: HostRuntime) -> Result<(), Fail> {
    follow::<Reading>(rt.alloc(), JOURNALS)
}

const TORN: &str = r"
== a last command that is cut short is dropped, wherever it is cut
command SADD abc x > Added; 30 bytes
command SREM abc x > Added; 60 bytes
command SADD b yz > Added; 89 bytes
cuts 60 89 > Yes
cuts 30 60 > Yes
cuts 0 30 > Yes

== bytes 0 behind whole commands are dropped
command SADD abc x > Added; 30 bytes
zeros 5 > Added; 35 bytes
scan > Whole 30 torn 5
zeros 100000 > Added; 100035 bytes
scan > Whole 30 torn 100005

== bytes 0 within the last command are dropped with it
command SADD abc x > Added; 30 bytes
text *3\r\n$4\r\nSADD\r\n$3\r\nab > Added; 50 bytes
zeros 3 > Added; 53 bytes
scan > Whole 30 torn 23
zeros 9000 > Added; 9053 bytes
scan > Whole 30 torn 9023

== bytes 0 before others are none of a journal
command SADD abc x > Added; 30 bytes
zeros 5 > Added; 35 bytes
command SADD abc y > Added; 65 bytes
scan > it has no command, at byte 30

== a file of bytes 0 alone has no change
zeros 100 > Added; 100 bytes
scan > Whole 0 torn 100
";

#[test]
fn torn_ends_are_dropped(rt: HostRuntime) -> Result<(), Fail> {
    follow::<Reading>(rt.alloc(), TORN)
}

const FAULTS: &str = r"
== bytes that are no command are told with their place
command SADD abc x > Added; 30 bytes
text *3\r\n!4\r\n > Added; 38 bytes
command SADD abc y > Added; 68 bytes
scan > it has no command, at byte 30
load 9 > Read +abc:x, no command, at byte 30 30

== so are commands that change no set
command SADD abc x > Added; 30 bytes
command SET abc x > Added; 59 bytes
scan > it has a command that is neither SADD nor SREM, at byte 30

== and reads
command SMEMBERS abc > Added; 27 bytes
scan > it has a command that is neither SADD nor SREM, at byte 0

== and other databases
command SELECT 1 > Added; 23 bytes
scan > it has a command that is neither SADD nor SREM, at byte 0

== and keys without a byte
command SADD abc x > Added; 30 bytes
text *3\r\n$4\r\nSADD\r\n$0\r\n\r\n$1\r\nx\r\n > Added; 57 bytes
scan > it has a key that has not 1 to 255 bytes, at byte 30

== a snapshot is told as such
text REDIS0011\0\0 > Added; 11 bytes
scan > it has a snapshot: write it with `aof-use-rdb-preamble no`, at byte 0
text \n > Added; 12 bytes
scan > it has a snapshot: write it with `aof-use-rdb-preamble no`, at byte 0

== a command of many words of another name is none of a journal
command SADD abc x > Added; 30 bytes
many DEL abc 2000 > Added; 20945 bytes
scan > it has a command that is neither SADD nor SREM, at byte 30
";

#[test]
fn faults_are_told_with_their_place(rt: HostRuntime) -> Result<(), Fail> {
    follow::<Reading>(rt.alloc(), FAULTS)
}
