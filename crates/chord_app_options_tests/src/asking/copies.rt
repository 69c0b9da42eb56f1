//! Copies that are asked, over loopback: `chord ask --quiet`, which `chord ring restore` is too.

use crate::asking::serving::follow_clients;
use crate::checks::check;
use chord_app_ask::{CopyRead, read_line};
use chord_app_operator::{Pair, pair_lines};
use chord_app_text::Finish;
use chord_map::Request;
use std::alloc::{AllocError, Global};
use std::test::Fail;

const COPIES: &str = "
client 2 16 3 session > Set
at serve 0 > Set
copy # pairs 0| > Done: restored 0|; kept 0, closed 1, asked 0
copy insert x:61 x:78|insert x:61 x:-|# pairs 2| > Done: restored 2|; kept 0, closed 1, asked 2
# a pair that is there already stays, and other lines that begin so are passed over
copy # made today|insert a x|insert a x|# pairs 2| > Done: restored 2|; kept 0, closed 1, asked 2
# there may be more requests than are in flight
copy insert a 0|insert a 1|insert a 2|insert a 3|insert a 4|insert a 5|insert a 6|insert a 7|insert a 8|\
insert a 9|insert a 10|insert a 11|insert a 12|insert a 13|insert a 14|insert a 15|insert a 16|# pairs 17| \
> Done: restored 17|; kept 0, closed 1, asked 17
# the end is missing, has another number, is cut, or is not the last line
copy \"\" > Err(Cut); kept 0, closed 1, asked 0
copy insert a x| > Err(Cut); kept 0, closed 1, asked 1
copy insert a x|# pairs 2| > Err(Cut); kept 0, closed 1, asked 1
copy insert a x|# pairs 0| > Err(Cut); kept 0, closed 1, asked 1
copy insert a x|# pairs 01| > Err(Cut); kept 0, closed 1, asked 1
copy insert a x|# pairs 1 > Err(Cut); kept 0, closed 1, asked 1
copy insert a x|#pairs 1| > Err(Cut); kept 0, closed 1, asked 1
copy insert a x|# pairs 1|insert a y| > Err(Cut); kept 0, closed 1, asked 2
copy insert a x|# pairs 1|#| > Err(Cut); kept 0, closed 1, asked 1
# a line without an end may be cut too, so it is not asked
copy insert a x|insert a y > Err(Cut); kept 0, closed 1, asked 1
# a line that is no request ends it, behind the lines before
copy insert a x|insert a x:7|insert a z|# pairs 3| > Err(Request { line: 2, why: ValueDigits }); \
kept 0, closed 1, asked 1
copy insert a x||# pairs 1| > Err(Request { line: 2, why: NoOperation }); kept 0, closed 1, asked 1
# each request acts once, over however many connections
at serve 45 serve 0 > Set
copy insert a x|insert a y|insert a z|# pairs 3| > Done: restored 3|; kept 0, closed 1, asked 3
";

/// Answers of a server without sessions to the two inserts of a copy: the first is added, the second
/// is refused, or is not answered.
const UNDONE: &str = "
client 2 2 1 > Set
# a copy ends at the first line that is not done, and says why
at answer 0000000b01810000000000000001010000000b0181000000000000000202 > Set
copy # two|insert a x|insert a y|# pairs 2| > Err(Undone { line: 3, why: SetFull })
at answer 0000000b01810000000000000001010000000b01ff00000000000000020a > Set
copy # two|insert a x|insert a y|# pairs 2| > Err(Undone { line: 3, why: Full })
at answer 0000000b01810000000000000001010000000b01ff00000000000000020b > Set
copy # two|insert a x|insert a y|# pairs 2| > Err(Undone { line: 3, why: NoAnswer })
at answer 0000000b01810000000000000001010000000b01ff000000000000000209 > Set
copy # two|insert a x|insert a y|# pairs 2| > Err(Undone { line: 3, why: Code(9) })
at answer 0000000b01810000000000000001010000000b01ff00000000000000000f > Set
copy # two|insert a x|insert a y|# pairs 2| > Err(Undone { line: 3, why: CallersSpent })
at answer 0000000b01810000000000000001010000000b01 > Set
copy # two|insert a x|insert a y|# pairs 2| > Err(Undone { line: 3, why: Lost })
";

#[test]
fn copies_are_asked(rt: HostRuntime) -> Result<(), Fail> {
    follow_clients(&rt, &rt, COPIES)?;
    follow_clients(&rt, &rt, UNDONE)
}

#[test]
fn what_was_read_of_a_copy(rt: HostRuntime) -> Result<(), Fail> {
    let one = CopyRead::NONE.with_request();
    let whole = CopyRead {
        requests: 1,
        is_whole: true,
    };
    check!(&rt; one == CopyRead { is_whole: false, ..whole });
    check!(&rt; one.with_comment(rt.alloc(), b"# pairs 1")? == whole);
    check!(&rt; whole.with_comment(rt.alloc(), b"# pairs 1 ")? == one);
    let mut written: Vec<u8> = Vec::new(rt.alloc());
    let ended = whole.end(rt.alloc(), &mut written);
    let is_written = written.as_slice() == b"restored 1\n".as_slice();
    drop(written);
    check!(&rt; ended == Ok(Finish::Done) && is_written);
    Ok(())
}

/// A pair whose key and value have these lengths, of bytes from these on.
fn pair_of(alloc: Global, (key, value): (usize, usize), first: u8) -> Result<Pair, AllocError> {
    let key = bytes_from(alloc, key, first)?;
    match bytes_from(alloc, value, first) {
        Ok(value) => Ok(Pair { key, value }),
        Err(refused) => {
            drop(key);
            Err(refused)
        }
    }
}

/// This many bytes, each one more than the one before.
fn bytes_from(alloc: Global, count: usize, first: u8) -> Result<Vec<u8>, AllocError> {
    let mut bytes = Vec::new(alloc);
    for place in 0..count {
        bytes.push(first.wrapping_add((place % 256) as u8))?;
    }
    Ok(bytes)
}

/// Whether the line that a server writes of the pair is read as the insert of it.
fn is_its_insert(alloc: Global, pair: Pair) -> Result<bool, AllocError> {
    let pairs = [pair];
    let lines = pair_lines(alloc, &pairs)?;
    let line = lines
        .as_bytes()
        .strip_suffix(b"\n".as_slice())
        .unwrap_or(b"");
    let read = read_line(alloc, line);
    let is_its = matches!(
        &read,
        Ok(Request::Insert { key, value })
            if key.as_slice() == pairs[0].key.as_slice()
                && value.as_slice() == pairs[0].value.as_slice()
    );
    drop(read);
    drop(lines);
    drop(pairs);
    Ok(is_its)
}

/// The shortest pair and the longest, of any bytes.
#[test]
fn the_line_of_a_pair_is_its_insert(rt: HostRuntime) -> Result<(), Fail> {
    for lengths in [(1, 0), (1, 1), (255, 4096)] {
        for first in [0u8, 10, 32, 45, 120, 255] {
            let pair = pair_of(rt.alloc(), lengths, first)?;
            let is_its = is_its_insert(rt.alloc(), pair)?;
            check!(&rt; is_its, "the longest, the shortest, and one of a byte each");
        }
    }
    Ok(())
}
