//! Lines of the console beside what they write: refusals by name, and steps that other scripts
//! leave out.

use crate::checks::check;
use crate::console::Ran;
use crate::console::rows::{Row, THREE, first_wrong, over};
use chord_app_text::Finish;
use std::alloc::{AllocError, Global};
use std::test::Fail;

/// Node 0 is at 40.., node 1 at c0.., node 2 at 80...
const UPKEEP: &[Row] = &[
    ("holder 40000000000000000000000000000000", "none"),
    ("create 40000000000000000000000000000000", "node 0"),
    ("caller 0", "refused 9 BadWindow"),
    ("caller 17", "refused 9 BadWindow"),
    ("caller 16", "caller 0"),
    (
        "join 40000000000000000000000000000000 0",
        "refused 6 IdTaken",
    ),
    ("join c0000000000000000000000000000000 0", "node 1"),
    ("stabilise 1", "none"),
    ("candidate 1 1", "refused 9 NotCloser"),
    ("rectify 0 1", "ok"),
    ("stabilise 0", "candidate 1"),
    ("candidate 0 1", "ok"),
    ("stabilise 0", "none"),
    ("candidate 0 1", "refused 9 NotCloser"),
    ("drop 0", "refused 9 HeadLive"),
    (
        "join 80000000000000000000000000000000 1",
        "refused 9 NotBetween",
    ),
    ("join 80000000000000000000000000000000 0", "node 2"),
    ("retire 2", "refused 9 NotLeaving"),
    ("leave 2", "ok"),
    ("leave 2", "refused 9 NotStaying"),
    ("retire 2", "ok"),
    ("candidate 0 2", "refused 9 Dead"),
    ("crash 1", "ok"),
    ("stabilise 0", "refused 9 HeadDead"),
    ("drop 0", "ok"),
    ("list 0", "list 0"),
];

#[test]
fn upkeep_line_by_line(rt: HostRuntime) -> Result<(), Fail> {
    let wrong = first_wrong(rt.alloc(), THREE, UPKEEP)?;
    assert!(rt; wrong.is_none(), "{wrong:?}");
    Ok(())
}

const SEGMENTS: &[Row] = &[
    ("create 40000000000000000000000000000000", "node 0"),
    ("join c0000000000000000000000000000000 0", "node 1"),
    (
        "cut 0 1 80000000000000000000000000000000",
        "refused 9 NoSegment",
    ),
    (
        "cut 0 0 40000000000000000000000000000000",
        "refused 9 NotInside",
    ),
    ("cut 0 0 80000000000000000000000000000000", "ok"),
    ("cut 0 1 c0000000000000000000000000000000", "ok"),
    ("merge 0 0 2", "refused 9 NotAdjacent"),
    ("merge 0 0 0", "refused 9 NoSegment"),
    ("merge 0 0 3", "refused 9 NoSegment"),
    ("merge 0 0 1", "ok"),
    ("give 0 2 1", "refused 9 NoSegment"),
    ("part 0 1 1 1", "refused 9 NoPart"),
    ("crash 1", "ok"),
    (
        "cut 1 0 80000000000000000000000000000000",
        "refused 9 Crashed",
    ),
    ("merge 1 0 1", "refused 9 Crashed"),
    ("give 1 0 0", "refused 9 Crashed"),
    ("leave 1", "refused 9 Crashed"),
    ("retire 1", "refused 9 Crashed"),
];

#[test]
fn segments_line_by_line(rt: HostRuntime) -> Result<(), Fail> {
    let wrong = first_wrong(rt.alloc(), THREE, SEGMENTS)?;
    assert!(rt; wrong.is_none(), "{wrong:?}");
    Ok(())
}

/// Runs an insert of a value of `value` bytes under a key of `key` bytes.
fn asks_long(alloc: Global, key: usize, value: usize, writes: &str) -> Result<Ran, AllocError> {
    let mut script = String::from_str(
        alloc,
        "create 40000000000000000000000000000000\ncaller\ninsert 0 0 ",
    )?;
    for _ in 0..key {
        script.push_str("61")?;
    }
    script.push(' ')?;
    for _ in 0..value {
        script.push_str("78")?;
    }
    let mut wanted = String::from_str(alloc, "node 0\ncaller 0\n")?;
    wanted.push_str(writes)?;
    over(alloc, THREE, script.as_str(), wanted.as_str())
}

#[test]
fn keys_and_values_have_limits(rt: HostRuntime) -> Result<(), Fail> {
    let alloc = rt.alloc();
    let longest = asks_long(alloc, 255, 4096, "message 0\n")?;
    check!(&rt;
        longest == (Finish::Done, true),
        "a key of 255 bytes with a value of 4,096 is taken"
    );
    let key = asks_long(alloc, 256, 1, "refused 9 KeyLong\n")?;
    check!(&rt;
        key == (Finish::Done, true),
        "a key of 256 bytes is too long"
    );
    let value = asks_long(alloc, 1, 4097, "refused 9 ValueLong\n")?;
    check!(&rt;
        value == (Finish::Done, true),
        "a value of 4,097 bytes is too long"
    );
    Ok(())
}
