//! What a journal has of executed requests, whole and cut short. The expected bytes follow the
//! RESP specification: `*` and how many words, and each word behind `$` and how many bytes it has.

use crate::journaling::Journaling;
use chord_testkit::follow;
use std::test::Fail;

pub const CHANGES: &str = r"
== a change adds its command
did insert abc x added > Done; mark 30: *3\r\n$4\r\nSADD\r\n$3\r\nabc\r\n$1\r\nx\r\n

== the commands are in the order of the changes
did insert a x added > Done; mark 28: *3\r\n$4\r\nSADD\r\n$1\r\na\r\n$1\r\nx\r\n
did remove a x removed > Done; mark 56: *3\r\n$4\r\nSADD\r\n$1\r\na\r\n$1\r\nx\r\n*3\r\n$4\r\nSREM\r\n$1\r\na\r\n$1\r\nx\r\n

== any bytes are spelled, and any length
did insert abcdefghijkl x:0d0a added > Done; mark 41: *3\r\n$4\r\nSADD\r\n$12\r\nabcdefghijkl\r\n$2\r\n\r\n\r\n
take > mark 41: *3\r\n$4\r\nSADD\r\n$12\r\nabcdefghijkl\r\n$2\r\n\r\n\r\n; mark 41
did insert x:00 x:- added > Done; mark 68: *3\r\n$4\r\nSADD\r\n$1\r\n\x00\r\n$0\r\n\r\n

== what changed nothing adds nothing
did insert abc x present > Done
did insert abc x setfull > Done
did remove abc x absent > Done
did retrieve abc values > Done
# nor does a reply of another kind
did insert abc x removed > Done
did remove abc x added > Done
did retrieve abc added > Done

== without a journal nothing is added, and no memory is wanted
none > None
! did insert abc x added > Done
! did remove abc x removed > Done
! take > mark 0

== pieces are behind one another, by their marks
did insert abc x added > Done; mark 30: *3\r\n$4\r\nSADD\r\n$3\r\nabc\r\n$1\r\nx\r\n
! take > mark 30: *3\r\n$4\r\nSADD\r\n$3\r\nabc\r\n$1\r\nx\r\n; mark 30
did remove abc x removed > Done; mark 60: *3\r\n$4\r\nSREM\r\n$3\r\nabc\r\n$1\r\nx\r\n
! take > mark 60: *3\r\n$4\r\nSREM\r\n$3\r\nabc\r\n$1\r\nx\r\n; mark 60
# nothing came since
! take > mark 60
";

#[test]
fn changes_are_appended(rt: HostRuntime) -> Result<(), Fail> {
    follow::<Journaling>(rt.alloc(), CHANGES)
}

const CUTS: &str = r"
== what is whole is read
did insert abc x added > Done; mark 30: *3\r\n$4\r\nSADD\r\n$3\r\nabc\r\n$1\r\nx\r\n
did remove b yz removed > Done; mark 59: *3\r\n$4\r\nSADD\r\n$3\r\nabc\r\n$1\r\nx\r\n*3\r\n$4\r\nSREM\r\n$1\r\nb\r\n$2\r\nyz\r\n
read 59 > Read SADD abc x, SREM b yz, between
# a last command that is cut short is not read, wherever it is cut
read 58 > Read SADD abc x, open
read 57 > Read SADD abc x, open
read 44 > Read SADD abc x, open
read 31 > Read SADD abc x, open
# a cut behind a command is the end of a journal
read 30 > Read SADD abc x, between
read 29 > Read open
read 1 > Read open
read 0 > Read between
";

#[test]
fn torn_ends_are_not_read(rt: HostRuntime) -> Result<(), Fail> {
    follow::<Journaling>(rt.alloc(), CUTS)
}
