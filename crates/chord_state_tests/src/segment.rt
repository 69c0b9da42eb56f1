//! Segments: what they keep, where they are cut, and how they are joined.

mod growths;
mod holding;

use crate::checks::check;
use chord_segment::{number_of, raise_mark};
use chord_testkit::follow;
use holding::Holding;
use std::test::Fail;

/// The identifier of `f` is in (A, B], those of `abc`, `a` and `abd` are in (B, C], that of `b` is
/// in (C, A].
const SCRIPTS: &str = "
== what is kept goes by key; callers are listed
begin (A A] > Begun; (A A]
# a segment has the floors and the calls that it was given, and no other callers
keep 2 0#3 abc > Kept; (A A], 0:2, 0#3 abc+x
keep 2 0#4 f > Kept; (A A], 0:2, 0#3 abc+x, 0#4 f+x
keep 1 1#2 f > Kept; (A A], 0:2, 0#3 abc+x, 0#4 f+x, 1:1, 1#2 f+x
floor 0 1 > floor 2 1
find 0#3 0#4 1#2 > find 0#3 abc+x 0#4 f+x 1#2 f+x
# each part has all floors, and its keys' calls
cut B > Ok; (A B], 0:2, 0#4 f+x, 1:1, 1#2 f+x | (B A], 0:2, 0#3 abc+x, 1:1
floor 0 1 > floor 2 1 | floor 2 1
find 0#3 0#4 1#2 > find New 0#4 f+x 1#2 f+x | find 0#3 abc+x New New
# the parts joined are the whole again
join > Ok; (A A], 0:2, 0#4 f+x, 0#3 abc+x, 1:1, 1#2 f+x
floor 0 1 > floor 2 1
find 0#3 0#4 1#2 > find 0#3 abc+x 0#4 f+x 1#2 f+x

== a part is split off and absorbed again
begin (A A] > Begun; (A A]
keep 2 0#3 abc > Kept; (A A], 0:2, 0#3 abc+x
keep 2 0#4 f > Kept; (A A], 0:2, 0#3 abc+x, 0#4 f+x
keep 1 1#2 f > Kept; (A A], 0:2, 0#3 abc+x, 0#4 f+x, 1:1, 1#2 f+x
# the segment becomes the first part, and the second part is split off
split B > Ok; (A B], 0:2, 0#4 f+x, 1:1, 1#2 f+x | (B A], 0:2, 0#3 abc+x, 1:1
floor 0 1 > floor 2 1 | floor 2 1
find 0#3 0#4 1#2 > find New 0#4 f+x 1#2 f+x | find 0#3 abc+x New New
# joined again it is whole, and the other is empty
absorb > Ok; (A A], 0:2, 0#4 f+x, 0#3 abc+x, 1:1, 1#2 f+x | (B A]
floor 0 1 > floor 2 1 | floor 0 0
find 0#3 0#4 1#2 > find 0#3 abc+x 0#4 f+x 1#2 f+x | find New New New

== a refused cut or join changes nothing
begin (B C] > Begun; (B C]
begin (A A] > Begun; (A A] | (B C]
keep 2 0#3 abc > Kept; (A A], 0:2, 0#3 abc+x | (B C]
keep 2 0#4 f > Kept; (A A], 0:2, 0#3 abc+x, 0#4 f+x | (B C]
keep 1 1#2 f > Kept; (A A], 0:2, 0#3 abc+x, 0#4 f+x, 1:1, 1#2 f+x | (B C]
# nothing is behind the end: a refused cut leaves the segment
split A > NotInside
# a refused join leaves both
absorb > NotAdjacent
floor 0 1 > floor 2 1 | floor 0 0
find 0#3 0#4 1#2 > find 0#3 abc+x 0#4 f+x 1#2 f+x | find New New New

== a caller's calls go by key
begin (A A] > Begun; (A A]
keep 2 0#3 abc > Kept; (A A], 0:2, 0#3 abc+x
keep 2 0#4 f > Kept; (A A], 0:2, 0#3 abc+x, 0#4 f+x
# a copy of caller 0 keeps its call under `f` alone, in which it has it in common with the caller
inside (A B] (B A] > twice true true false, 0#4 f+x

== a copy is the same
begin (A A] > Begun; (A A]
reserve 0 > Ok
keep 0 0#1 abc > Kept; (A A], 0#1 abc+x
copy > Ok; (A A], 0#1 abc+x | (A A], 0#1 abc+x
same > Yes
floor 0 > floor 0 | floor 0
find 0#1 0#2 > find 0#1 abc+x New | find 0#1 abc+x New

== a segment is the same when its parts are joined again
begin (A A] 0#1 abc > Begun; (A A], 0#1 abc+x
cut B > Ok; (A B] | (B A], 0#1 abc+x
join > Ok; (A A], 0#1 abc+x
equals 0#1 abc > Yes

== others are not the same
begin (A A] 0#1 abc > Begun; (A A], 0#1 abc+x
equals 0#1 abd > No
equals > No

== neighbours keep a call once
begin (C A] 0#1 b > Begun; (C A], 0#1 b+x
begin (A C] 0#1 abc > Begun; (A C], 0#1 abc+x | (C A], 0#1 b+x
# each still keeps the call
join > Twice
find 0#1 > find 0#1 abc+x | find 0#1 b+x

== refused cuts and joins
begin (C A] > Begun; (C A]
begin (A B] > Begun; (A B] | (C A]
cut A > NotInside
cut B > NotInside
cut C > NotInside
join > NotAdjacent
begin (B B] > Begun; (B B] | (A B]
begin (A B] > Begun; (A B] | (B B]
join > Overlap

== floors drop what was taken
begin (A A] 0#1 abc > Begun; (A A], 0#1 abc+x
# a second call is kept beside the first at floor 0
keep 0 0#2 b > Kept; (A A], 0#1 abc+x, 0#2 b+x
find 0#1 0#2 > find 0#1 abc+x 0#2 b+x
# the third one raises the floor to 2, so that the first is then Seen
keep 2 0#3 a > Kept; (A A], 0:2, 0#3 a+x
find 0#3 0#1 > find 0#3 a+x Seen
floor 0 > floor 2
# both parts have the floor
cut B > Ok; (A B], 0:2 | (B A], 0:2, 0#3 a+x
floor 0 > floor 2 | floor 2

== callers are kept apart
begin (A A] > Begun; (A A]
keep 0 5#1 abc > Kept; (A A], 5#1 abc+x
keep 0 3#1 b > Kept; (A A], 3#1 b+x, 5#1 abc+x
keep 0 9#1 abc > Kept; (A A], 3#1 b+x, 5#1 abc+x, 9#1 abc+x
keep 0 5#2 f > Kept; (A A], 3#1 b+x, 5#1 abc+x, 5#2 f+x, 9#1 abc+x
keep 0 3#3 abc > Kept; (A A], 3#1 b+x, 3#3 abc+x, 5#1 abc+x, 5#2 f+x, 9#1 abc+x
# each call is found under its caller and number
find 5#1 3#1 9#1 5#2 3#3 > find 5#1 abc+x 3#1 b+x 9#1 abc+x 5#2 f+x 3#3 abc+x
# no other call is found
find 3#2 4#1 5#3 6#1 9#2 10#1 > find New New New New New New
# calls of several callers have no order among them
equals 9#1 abc 3#1 b 3#3 abc 5#1 abc 5#2 f > Yes
# a call is its caller's alone
equals 5#1 abc 3#1 b 4#1 abc 5#2 f 3#3 abc > No
# each call counts
equals 5#1 abc 3#1 b 9#1 abc 5#2 f > No

== a readied caller is not seen
begin (A A] 5#1 abc 9#1 abc > Begun; (A A], 5#1 abc+x, 9#1 abc+x
reserve 7 > Ok
equals 5#1 abc 9#1 abc > Yes
floor 7 > floor 0
find 7#1 > find New

== joined callers keep both parts
begin (C A] 4#1 b 7#1 b > Begun; (C A], 4#1 b+x, 7#1 b+x
begin (A C] 5#1 abc 3#1 abc > Begun; (A C], 3#1 abc+x, 5#1 abc+x | (C A], 4#1 b+x, 7#1 b+x
join > Ok; (A A], 3#1 abc+x, 4#1 b+x, 5#1 abc+x, 7#1 b+x
find 3#1 5#1 4#1 7#1 > find 3#1 abc+x 5#1 abc+x 4#1 b+x 7#1 b+x
";

#[test]
fn what_segments_keep(rt: HostRuntime) -> Result<(), Fail> {
    follow::<Holding>(rt.alloc(), SCRIPTS)
}

#[test]
fn marks_are_raised(rt: HostRuntime) -> Result<(), Fail> {
    let mut marks = Vec::with_capacity(rt.alloc(), 3)?;
    raise_mark(&mut marks, 7, 2);
    raise_mark(&mut marks, 8, 1);
    raise_mark(&mut marks, 7, 1);
    let numbers = (
        number_of(&marks, 7),
        number_of(&marks, 8),
        number_of(&marks, 9),
    );
    drop(marks);
    check!(&rt;
        numbers == (2, 1, 0),
        "a mark is not lowered, and an owner without one has 0"
    );
    Ok(())
}
