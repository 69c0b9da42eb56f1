//! What a node does with calls, and the pages in which its pairs are read.

use super::acting::Acting;
use chord_testkit::follow;
use std::test::Fail;

/// Calls about `abc`, sent by caller 0.
pub const SCRIPTS: &str = "
== a call acts once
found 1 > 0 Staying; Staying (A A]
# a call for a held key is executed, and its reply told
ask 1 insert abc x > Told 0#1 added, executed 0#1 added; Staying (A A] pairs 1
# a call that comes again gets the same reply, and is not executed
ask 1 insert abc x > Told 0#1 added

== a full store adds nothing
found 1 > 0 Staying; Staying (A A]
ask 1 insert abc x > Told 0#1 added, executed 0#1 added; Staying (A A] pairs 1
# a full store refuses a call that would add a pair
ask 2 insert abc y > Full
# a full store executes a call that adds no pair
ask 3 insert abc x > Told 0#3 present, executed 0#3 present

== values are told and seen calls dropped
found 1 > 0 Staying; Staying (A A]
ask 1 insert abc x > Told 0#1 added, executed 0#1 added; Staying (A A] pairs 1
# a retrieve is answered with the values
ask 2 floor 1 retrieve abc > Told 0#2 values 1 78, executed 0#2 values 1 78
# a call at its caller's floor is dropped
ask 1 insert abc x > Dropped

== a newborn node drops a call
# a newborn node stays, and has the number of its links
node > 1 Staying
# a node that holds nothing and knows no other drops a call
ask 1 insert abc x > Dropped

== a call is passed on: the key is behind its first entry
newborn 1 1@C 0@A > 1 Staying
# the links are set
list > list 0@A 1@C
# a call for another's key goes on to the first entry, with one hop less
ask 1 insert abc x > Forward 0: 0#1 hops 254
# a call for another's key is dropped if no hops are left
ask 1 hops 0 insert abc x > Dropped

== a call goes to its last hop: the key is between the node and its first entry
newborn 1 0@A 1@C > 0 Staying
list > list 1@C 0@A
# a call for a key up to the first entry goes there, with one hop less
ask 1 insert abc x > Forward 1: 0#1 hops 254
# its last hop too needs one
ask 1 hops 0 insert abc x > Dropped
";

/// The pairs of node 0, at A, and what is read of them from an identifier on. `i:i=1` is the pair
/// of `i` with 1, at the identifier of `i`.
pub const PAGES: &str = "
== pages are in order of identifier
found 10 > 0 Staying; Staying (A A]
# a node that holds the circle adds a pair
ask 1 floor 0 hops 0 insert c 6 > Told 0#1 added, executed 0#1 added; Staying (A A] pairs 1
ask 2 floor 1 hops 0 insert g 5 > Told 0#2 added, executed 0#2 added; Staying (A A] pairs 2
ask 3 floor 2 hops 0 insert g 4 > Told 0#3 added, executed 0#3 added; Staying (A A] pairs 3
ask 4 floor 3 hops 0 insert d 3 > Told 0#4 added, executed 0#4 added; Staying (A A] pairs 4
ask 5 floor 4 hops 0 insert h 2 > Told 0#5 added, executed 0#5 added; Staying (A A] pairs 5
ask 6 floor 5 hops 0 insert i 1 > Told 0#6 added, executed 0#6 added; Staying (A A] pairs 6
# a page of two pairs, in the order of their identifiers
page 0 2 > page i:i=1 h:h=2 next h
# a page begins at its identifier
page h 1 > page h:h=2 next h
# a page ends at the end of the segment, though it could have more pairs
page 27d5482eebd075de44389774fce28c6a 2 > page d:d=3 next A
# all pairs of an identifier are in one page
page 40000000000000000000000000000001 1 > page g:g=4 g:g=5 next g
# the last page ends at the greatest identifier, though the segment goes on
page g 1000 > page g:g=4 g:g=5 c:c=6
# a page may have no pairs
page ffffffffffffffffffffffffffffffff 1 > page

== a node tells no pairs of others
# a node that holds nothing tells no page
page g 1 > no page

== a pair is placed by its key
# its identifier begins its key's SHA-1
placed g 4 > g:g=4
";

#[test]
fn calls_are_answered_and_pairs_read(rt: HostRuntime) -> Result<(), Fail> {
    follow::<Acting<true>>(rt.alloc(), SCRIPTS)?;
    follow::<Acting<true>>(rt.alloc(), PAGES)
}

#[test]
fn calls_that_are_taken_over_are_answered_as_any_other(rt: HostRuntime) -> Result<(), Fail> {
    follow::<Acting<false>>(rt.alloc(), SCRIPTS)
}
