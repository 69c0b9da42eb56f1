//! Worlds of several nodes: what they write for whole scripts.
ghost use Rattle.std.specs.Prelude.{◌≡◌, []};
ghost use Rattle.std.specs.List.{All};

use crate::checks::check;
use crate::console::{DONE, Ran, runs};
use chord_app_world::add_store;
use chord_store::CappedStore;
use std::alloc::{AllocError, Global};
use std::fmt::Write;

/// Runs the script over two stores, the second with room for `room` pairs.
pub fn over_two(alloc: Global, room: u64, script: &str, wanted: &str) -> Option<Ran> {
    let mut stores = Vec::new(alloc);
    add_store(&mut stores, CappedStore::new(alloc, u64::MAX)).ok()?;
    add_store(&mut stores, CappedStore::new(alloc, room)).ok()?;
    Some(runs(alloc, stores, script, wanted))
}

/// A key moves to a node that joins, while its caller waits for a reply.
const MOVING_KEY: &str = concat!(
    "create 40000000000000000000000000000000\ncaller\nretrieve 0 0 616263\ndeliver 0\n",
    "deliver 1\ninsert 0 0 616263 78\ndeliver 2\ndeliver 3\n",
    "join c0000000000000000000000000000000 0\nrectify 0 1\ncandidate 0 1\n",
    "cut 0 0 c0000000000000000000000000000000\ngive 0 0 1\nretrieve 0 0 616263\ndeliver 5\n",
    "deliver 4\ndeliver 6\ndeliver 8\ndeliver 4\ndeliver 2\ndeliver 10\ndeliver 3\ndeliver 7\n",
    "deliver 9\nholder a9993e364706816aba3e25717850c26c\nhistory\nleave 1\nretire 1\n",
    "give 1 0 0\ndeliver 11\ndeliver 12\nretire 1\ndeliver 4\nleave 0\nretire 0\n",
    "retrieve 0 1 616263\ndeliver 14\ndeliver 15\ndeliver 16\n",
);

const MOVING_KEY_WRITES: &str = concat!(
    "node 0\ncaller 0\nmessage 0\ntold 1\nfresh values 0\nmessage 2\ntold 3\nfresh added\n",
    "node 1\nok\nok\nok\nmessage 4\nmessage 5\nforward 6\ngot 7\ntold 8\nfresh values 1 78\n",
    "got 9\nforward 10\ndropped\nknown\nfreed\nunknown\nnode 1\nhistory 3\nok\n",
    "refused 9 NotEmpty\nmessage 11\ngot 12\nfreed\nok\ngot 13\nok\nrefused 8 Unsafe\n",
    "message 14\nforward 15\ntold 16\nfresh values 1 78\n",
);

/// The confirmation of a handover is lost, and its receiver leaves before the part comes again.
const LOST_CONFIRMATION: &str = concat!(
    "create 40000000000000000000000000000000\ncaller\nretrieve 0 0 616263\ndeliver 0\n",
    "deliver 1\ninsert 0 0 616263 78\ndeliver 2\ndeliver 3\n",
    "join c0000000000000000000000000000000 0\nrectify 0 1\ncandidate 0 1\n",
    "cut 0 0 c0000000000000000000000000000000\ngive 0 0 1\nretrieve 0 0 616263\ndeliver 5\n",
    "deliver 4\ndeliver 6\ndeliver 8\ndeliver 4\ndeliver 2\ndeliver 10\ndeliver 3\n",
    "holder a9993e364706816aba3e25717850c26c\nhistory\nleave 1\nretire 1\ngive 1 0 0\n",
    "deliver 11\ndeliver 12\nretire 1\ndeliver 4\ndeliver 13\nleave 0\nretire 0\n",
    "retrieve 0 1 616263\ndeliver 14\ndeliver 15\ndeliver 16\n",
);

const LOST_CONFIRMATION_WRITES: &str = concat!(
    "node 0\ncaller 0\nmessage 0\ntold 1\nfresh values 0\nmessage 2\ntold 3\nfresh added\n",
    "node 1\nok\nok\nok\nmessage 4\nmessage 5\nforward 6\ngot 7\ntold 8\nfresh values 1 78\n",
    "got 9\nforward 10\ndropped\nknown\nnode 1\nhistory 3\nok\nrefused 9 NotEmpty\n",
    "message 11\ngot 12\nfreed\nok\ngot 13\nfreed\nok\nrefused 8 Unsafe\nmessage 14\n",
    "forward 15\ntold 16\nfresh values 1 78\n",
);

/// A node that is gone declines a handover, and the giver takes the segment back.
const DECLINED_HANDOVER: &str = concat!(
    "create 40000000000000000000000000000000\njoin c0000000000000000000000000000000 0\n",
    "leave 1\nretire 1\ngive 0 0 1\ndeliver 0\ndeliver 1\ndeliver 1\n",
    "holder 40000000000000000000000000000000\n",
);

const DECLINED_HANDOVER_WRITES: &str = concat!(
    "node 0\nnode 1\nok\nok\nmessage 0\ndeclined 1\nheld\nunknown\nnode 0\n",
);

/// The second handover of a sender arrives before the first.
const HANDOVERS_OUT_OF_ORDER: &str = concat!(
    "create 40000000000000000000000000000000\njoin c0000000000000000000000000000000 0\n",
    "cut 0 0 c0000000000000000000000000000000\ncut 0 0 80000000000000000000000000000000\n",
    "give 0 0 1\ngive 0 0 1\nholder 80000000000000000000000000000000\ndeliver 1\ndeliver 0\n",
    "deliver 1\nholder 80000000000000000000000000000000\nmerge 1 0 1\nmerge 1 0 1\n",
);

const HANDOVERS_OUT_OF_ORDER_WRITES: &str = concat!(
    "node 0\nnode 1\nok\nok\nmessage 0\nmessage 1\nunderway 0 1 1\nearly\ngot 2\ngot 3\n",
    "node 1\nok\nrefused 9 NoSegment\n",
);

/// A call arrives at a node that gave its key away.
const INSERT_AFTER_A_HANDOVER: &str = concat!(
    "create 40000000000000000000000000000000\ncaller\n",
    "join c0000000000000000000000000000000 0\ncut 0 0 c0000000000000000000000000000000\n",
    "give 0 0 1\ndeliver 0\ninsert 0 1 616263 78\ndeliver 2\ndeliver 3\ndeliver 1\n",
    "holder 80000000000000000000000000000000\n",
);

const INSERT_AFTER_A_HANDOVER_WRITES: &str = concat!(
    "node 0\ncaller 0\nnode 1\nok\nmessage 0\ngot 1\nmessage 2\ntold 3\nfresh added\nfreed\n",
    "node 1\n",
);

/// The new holder answers a repeated call again, and does not execute it.
const REPEATS_AFTER_A_HANDOVER: &str = concat!(
    "create 40000000000000000000000000000000\ncaller\n",
    "join c0000000000000000000000000000000 0\nrectify 0 1\ncandidate 0 1\n",
    "cut 0 0 c0000000000000000000000000000000\ninsert 0 0 616263 78\ndeliver 0\ngive 0 0 1\n",
    "deliver 2\ndeliver 0\ndeliver 4\ndeliver 5\ndeliver 1\n",
);

const REPEATS_AFTER_A_HANDOVER_WRITES: &str = concat!(
    "node 0\ncaller 0\nnode 1\nok\nok\nok\nmessage 0\ntold 1\nmessage 2\ngot 3\nforward 4\n",
    "told 5\nfresh added\nknown\n",
);

/// After a cut both parts know what their callers have seen.
const FLOORS_AFTER_A_CUT: &str = concat!(
    "create 40000000000000000000000000000000\ncaller\ninsert 0 0 61 78\ndeliver 0\ndeliver 1\n",
    "remove 0 0 61 78\ndeliver 2\ndeliver 3\nretrieve 0 0 616263\ndeliver 4\ndeliver 5\n",
    "cut 0 0 90000000000000000000000000000000\ndeliver 0\ndeliver 2\n",
);

const FLOORS_AFTER_A_CUT_WRITES: &str = concat!(
    "node 0\ncaller 0\nmessage 0\ntold 1\nfresh added\nmessage 2\ntold 3\nfresh removed\n",
    "message 4\ntold 5\nfresh values 0\nok\ndropped\ndropped\n",
);

/// A node that crashed stays the holder of what it held.
const CRASHED_HOLDER: &str = concat!(
    "create 40000000000000000000000000000000\ncaller\n",
    "join c0000000000000000000000000000000 0\ncut 0 0 c0000000000000000000000000000000\n",
    "give 0 0 1\ndeliver 0\ninsert 0 1 616263 78\ndeliver 2\ncrash 0\ncrash 1\ncrash 1\n",
    "deliver 2\ndeliver 3\nretrieve 0 0 616263\ndeliver 4\n",
    "holder 80000000000000000000000000000000\nhistory\n",
);

const CRASHED_HOLDER_WRITES: &str = concat!(
    "node 0\ncaller 0\nnode 1\nok\nmessage 0\ngot 1\nmessage 2\ntold 3\nrefused 8 Unsafe\nok\n",
    "refused 3 NoSuchNode\nrefused 9 Crashed\nfresh added\nmessage 4\ndropped\nnode 1\n",
    "history 1\n",
);

const RECEIVER_WITH_A_FULL_STORE: &str = concat!(
    "create 40000000000000000000000000000000\ncaller\ninsert 0 0 61 78\ndeliver 0\ndeliver 1\n",
    "insert 0 0 61 79\ndeliver 2\ndeliver 3\njoin c0000000000000000000000000000000 0\n",
    "cut 0 0 c0000000000000000000000000000000\ngive 0 0 1\ndeliver 4\n",
    "holder 80000000000000000000000000000000\nleave 1\nretire 1\ndeliver 4\ndeliver 5\n",
    "holder 80000000000000000000000000000000\n",
);

const RECEIVER_WITH_A_FULL_STORE_WRITES: &str = concat!(
    "node 0\ncaller 0\nmessage 0\ntold 1\nfresh added\nmessage 2\ntold 3\nfresh added\n",
    "node 1\nok\nmessage 4\nfull\nunderway 0 1 1\nok\nok\ndeclined 5\nheld\nnode 0\n",
);

const FLOORS_AFTER_ANOTHER_CUT: &str = concat!(
    "create 40000000000000000000000000000000\ncaller\ninsert 0 0 61 78\ndeliver 0\ndeliver 1\n",
    "remove 0 0 61 78\ndeliver 2\ndeliver 3\nretrieve 0 0 616263\ndeliver 4\ndeliver 5\n",
    "cut 0 0 50000000000000000000000000000000\ndeliver 0\ndeliver 2\n",
);

/// Each session ends as done, with the lines that it should write.
#[test]
fn sessions_of_two_nodes(rt: HostRuntime) {
    for (script, wanted) in [
        (MOVING_KEY, MOVING_KEY_WRITES),
        (LOST_CONFIRMATION, LOST_CONFIRMATION_WRITES),
        (DECLINED_HANDOVER, DECLINED_HANDOVER_WRITES),
        (HANDOVERS_OUT_OF_ORDER, HANDOVERS_OUT_OF_ORDER_WRITES),
        (INSERT_AFTER_A_HANDOVER, INSERT_AFTER_A_HANDOVER_WRITES),
        (REPEATS_AFTER_A_HANDOVER, REPEATS_AFTER_A_HANDOVER_WRITES),
        (FLOORS_AFTER_A_CUT, FLOORS_AFTER_A_CUT_WRITES),
        (FLOORS_AFTER_ANOTHER_CUT, FLOORS_AFTER_A_CUT_WRITES),
        (CRASHED_HOLDER, CRASHED_HOLDER_WRITES),
    ] {
        let ran = over_two(rt.alloc(), u64::MAX, script, wanted);
        check!(&rt; ran == DONE, script);
    }
}

/// A receiver with a full store takes a handover once there is room.
#[test]
fn receiver_with_a_full_store(rt: HostRuntime) {
    let (script, wanted) = (
        RECEIVER_WITH_A_FULL_STORE,
        RECEIVER_WITH_A_FULL_STORE_WRITES,
    );
    check!(&rt; over_two(rt.alloc(), 1, script, wanted) == DONE);
}

const IN_TWO_PARTS: &str = concat!(
    "join c0000000000000000000000000000000 0\ncut 0 0 c0000000000000000000000000000000\n",
    "give 0 0 1\ndeliver 130\ndeliver 130\nholder 80000000000000000000000000000000\n",
    "part 0 1 1 3\npart 0 1 1 2\ndeliver 131\ndeliver 130\n",
    "holder 80000000000000000000000000000000\ndeliver 132\npart 0 1 1 1\n",
);

const IN_TWO_PARTS_WRITES: &str = concat!(
    "node 1\nok\nmessage 130\npart\npart\nunderway 0 1 1\nrefused 9 NoPart\nmessage 131\n",
    "got 132\ngot 133\nnode 1\nfreed\nrefused 9 NoPart\n",
);

/// A node with 65 values under one key: the script, and the lines that it should write.
pub fn sixty_five_values(alloc: Global) -> Result<(String, String), AllocError> {
    let mut script = String::from_str(alloc, "create 40000000000000000000000000000000\ncaller\n")?;
    let mut wanted = String::from_str(alloc, "node 0\ncaller 0\n")?;
    for value in 0..65u32 {
        let asked = 2 * value;
        let told = 2 * value + 1;
        write!(
            script,
            "insert 0 0 61 {value:02x}\ndeliver {asked}\ndeliver {told}\n"
        )?;
        write!(wanted, "message {asked}\ntold {told}\nfresh added\n")?;
    }
    Ok((script, wanted))
}

/// Runs the script with these values and a handover of them.
fn over_two_parts(alloc: Global) -> Option<Ran> {
    let (mut script, mut wanted) = sixty_five_values(alloc).ok()?;
    script.push_str(IN_TWO_PARTS).ok()?;
    wanted.push_str(IN_TWO_PARTS_WRITES).ok()?;
    over_two(alloc, u64::MAX, script.as_str(), wanted.as_str())
}

/// A handover of 65 pairs has two parts; its receiver holds the segment once both have come.
#[test]
fn a_handover_in_two_parts(rt: HostRuntime) {
    check!(&rt; over_two_parts(rt.alloc()) == DONE);
}
