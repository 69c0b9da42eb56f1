//! A message of each kind is lost, comes again, late, or out of order: each line with what it must
//! write.

use crate::checks::check;
use crate::console::rows::{Row, THREE, first_wrong};
use crate::console::worlds::{over_two, sixty_five_values};
use crate::console::{DONE, Ran};
use std::alloc::Global;
use std::process::Abort;
use std::test::Fail;

/// Two stores with room for any number of pairs.
const ROOMY: &[u64] = &[u64::MAX, u64::MAX];

/// A call is lost, and sent again. The lost one comes late: first while its reply is kept, then
/// below its caller's floor.
const CALLS: &[Row] = &[
    ("create 40000000000000000000000000000000", "node 0"),
    ("caller", "caller 0"),
    ("insert 0 0 61 78", "message 0"),
    ("resend 0 0", "message 1"),
    ("deliver 1", "told 2"),
    ("deliver 2", "fresh added"),
    ("deliver 0", "told 3"),
    ("deliver 3", "known"),
    ("remove 0 0 61 78", "message 4"),
    ("deliver 4", "told 5"),
    ("deliver 5", "fresh removed"),
    ("deliver 0", "dropped"),
    ("deliver 1", "dropped"),
    ("retrieve 0 0 61", "message 6"),
    ("deliver 6", "told 7"),
    ("deliver 7", "fresh values 0"),
    ("deliver 4", "dropped"),
    ("history", "history 3"),
];

/// Two calls come in the other order, and so do their replies.
const TURNED_CALLS: &[Row] = &[
    ("create 40000000000000000000000000000000", "node 0"),
    ("caller 2", "caller 0"),
    ("insert 0 0 61 78", "message 0"),
    ("remove 0 0 61 78", "message 1"),
    ("deliver 1", "told 2"),
    ("deliver 0", "told 3"),
    ("deliver 3", "fresh added"),
    ("deliver 2", "fresh absent"),
    ("retrieve 0 0 61", "message 4"),
    ("deliver 4", "told 5"),
    ("deliver 5", "fresh values 1 78"),
    ("history", "history 3"),
];

/// A reply is lost, and the call is answered again. The lost one comes late, also after the next
/// call.
const REPLIES: &[Row] = &[
    ("create 40000000000000000000000000000000", "node 0"),
    ("caller", "caller 0"),
    ("insert 0 0 61 78", "message 0"),
    ("deliver 0", "told 1"),
    ("resend 0 0", "message 2"),
    ("deliver 2", "told 3"),
    ("deliver 3", "fresh added"),
    ("deliver 1", "known"),
    ("deliver 3", "known"),
    ("retrieve 0 0 61", "message 4"),
    ("deliver 4", "told 5"),
    ("deliver 1", "known"),
    ("deliver 5", "fresh values 1 78"),
    ("deliver 5", "known"),
    ("history", "history 2"),
];

/// That a store is full is lost, comes again, and comes late, after the call was executed.
const FULL: &[Row] = &[
    ("create 40000000000000000000000000000000", "node 0"),
    ("caller", "caller 0"),
    ("caller", "caller 1"),
    ("insert 0 0 61 78", "message 0"),
    ("deliver 0", "told 1"),
    ("deliver 1", "fresh added"),
    ("insert 1 0 61 79", "message 2"),
    ("deliver 2", "full 3"),
    ("resend 1 0", "message 4"),
    ("deliver 4", "full 5"),
    ("deliver 5", "full"),
    ("deliver 5", "full"),
    ("remove 0 0 61 78", "message 6"),
    ("deliver 6", "told 7"),
    ("deliver 7", "fresh removed"),
    ("deliver 2", "told 8"),
    ("deliver 3", "full"),
    ("retrieve 1 0 61", "refused 9 WindowFull"),
    ("deliver 8", "fresh added"),
    ("deliver 3", "full"),
    ("deliver 4", "told 9"),
    ("deliver 9", "known"),
    ("retrieve 1 0 61", "message 10"),
    ("deliver 10", "told 11"),
    ("deliver 11", "fresh values 1 79"),
    ("history", "history 4"),
];

/// A call is given up, and the next one is asked at once. The one given up comes late and acts,
/// once, and comes again below its caller's floor.
const GIVEN_UP: &[Row] = &[
    ("giveup 0 1", "refused 2 NotCreated"),
    ("create 40000000000000000000000000000000", "node 0"),
    ("giveup 0 1", "refused 4 NoSuchCaller"),
    ("caller", "caller 0"),
    ("insert 0 0 61 78", "message 0"),
    ("retrieve 0 0 61", "refused 9 WindowFull"),
    ("giveup 0 2", "refused 9 Idle"),
    ("giveup 0 1", "ok"),
    ("giveup 0 1", "refused 9 Idle"),
    ("resend 0 0", "refused 9 Idle"),
    ("retrieve 0 0 61", "message 1"),
    ("deliver 0", "told 2"),
    ("deliver 2", "known"),
    ("deliver 0", "told 3"),
    ("deliver 1", "told 4"),
    ("deliver 4", "fresh values 1 78"),
    ("deliver 3", "known"),
    ("deliver 0", "dropped"),
    ("history", "history 2"),
];

/// A call that a full store refused is given up. It comes again when there is room, behind the next
/// one of its caller, and never acts.
const GIVEN_UP_FULL: &[Row] = &[
    ("create 40000000000000000000000000000000", "node 0"),
    ("caller", "caller 0"),
    ("caller", "caller 1"),
    ("insert 0 0 61 78", "message 0"),
    ("deliver 0", "told 1"),
    ("deliver 1", "fresh added"),
    ("insert 1 0 61 79", "message 2"),
    ("deliver 2", "full 3"),
    ("giveup 1 1", "ok"),
    ("deliver 3", "full"),
    ("retrieve 1 0 61", "message 4"),
    ("deliver 4", "told 5"),
    ("deliver 5", "fresh values 1 78"),
    ("remove 0 0 61 78", "message 6"),
    ("deliver 6", "told 7"),
    ("deliver 7", "fresh removed"),
    ("deliver 2", "dropped"),
    ("history", "history 3"),
];

/// A call that a full store refused was sent twice, and is given up. The second message of it comes
/// when there is room, and acts.
const GIVEN_UP_TWICE: &[Row] = &[
    ("create 40000000000000000000000000000000", "node 0"),
    ("caller", "caller 0"),
    ("caller", "caller 1"),
    ("insert 0 0 61 78", "message 0"),
    ("deliver 0", "told 1"),
    ("deliver 1", "fresh added"),
    ("insert 1 0 61 79", "message 2"),
    ("resend 1 0", "message 3"),
    ("deliver 2", "full 4"),
    ("giveup 1 1", "ok"),
    ("remove 0 0 61 78", "message 5"),
    ("deliver 5", "told 6"),
    ("deliver 6", "fresh removed"),
    ("deliver 3", "told 7"),
    ("deliver 7", "known"),
    ("retrieve 0 0 61", "message 8"),
    ("deliver 8", "told 9"),
    ("deliver 9", "fresh values 1 79"),
    ("history", "history 4"),
];

/// A part is lost, and sent again; so is the Got. Both come late.
const PARTS: &[Row] = &[
    ("create 40000000000000000000000000000000", "node 0"),
    ("caller", "caller 0"),
    ("insert 0 0 616263 78", "message 0"),
    ("deliver 0", "told 1"),
    ("deliver 1", "fresh added"),
    ("join c0000000000000000000000000000000 0", "node 1"),
    ("cut 0 0 c0000000000000000000000000000000", "ok"),
    ("give 0 0 1", "message 2"),
    ("holder 80000000000000000000000000000000", "underway 0 1 1"),
    ("part 0 1 1 1", "message 3"),
    ("deliver 3", "got 4"),
    ("holder 80000000000000000000000000000000", "node 1"),
    ("part 0 1 1 1", "message 5"),
    ("deliver 5", "got 6"),
    ("deliver 2", "got 7"),
    ("deliver 6", "freed"),
    ("deliver 4", "unknown"),
    ("deliver 6", "unknown"),
    ("deliver 7", "unknown"),
    ("part 0 1 1 1", "refused 9 NoPart"),
    ("retrieve 0 1 616263", "message 8"),
    ("deliver 8", "told 9"),
    ("deliver 9", "fresh values 1 78"),
    ("history", "history 2"),
];

/// Two handovers come in their order, and the Gots in the other one.
const TURNED_GOTS: &[Row] = &[
    ("create 40000000000000000000000000000000", "node 0"),
    ("join c0000000000000000000000000000000 0", "node 1"),
    ("cut 0 0 c0000000000000000000000000000000", "ok"),
    ("cut 0 0 80000000000000000000000000000000", "ok"),
    ("give 0 0 1", "message 0"),
    ("give 0 0 1", "message 1"),
    ("deliver 0", "got 2"),
    ("deliver 1", "got 3"),
    ("deliver 3", "freed"),
    ("deliver 3", "unknown"),
    ("part 0 1 1 1", "message 4"),
    ("part 0 1 2 1", "refused 9 NoPart"),
    ("deliver 4", "got 5"),
    ("deliver 2", "freed"),
    ("deliver 5", "unknown"),
    ("holder 80000000000000000000000000000000", "node 1"),
    ("holder c0000000000000000000000000000000", "node 1"),
];

/// The Declined of a node that is gone is lost, comes again, and comes late, after the segment was
/// given once more.
const DECLINED: &[Row] = &[
    ("create 40000000000000000000000000000000", "node 0"),
    ("join c0000000000000000000000000000000 0", "node 1"),
    ("cut 0 0 c0000000000000000000000000000000", "ok"),
    ("leave 1", "ok"),
    ("retire 1", "ok"),
    ("give 0 0 1", "message 0"),
    ("deliver 0", "declined 1"),
    ("holder 80000000000000000000000000000000", "underway 0 1 1"),
    ("part 0 1 1 1", "message 2"),
    ("deliver 2", "declined 3"),
    ("deliver 3", "held"),
    ("holder 80000000000000000000000000000000", "node 0"),
    ("deliver 1", "unknown"),
    ("deliver 3", "unknown"),
    ("deliver 0", "declined 4"),
    ("deliver 4", "unknown"),
    ("give 0 1 1", "message 5"),
    ("deliver 1", "unknown"),
    ("holder 80000000000000000000000000000000", "underway 0 1 2"),
    ("deliver 5", "declined 6"),
    ("deliver 6", "held"),
    ("holder 80000000000000000000000000000000", "node 0"),
];

/// Two handovers are declined, and the giver hears of the second one first.
const TURNED_DECLINED: &[Row] = &[
    ("create 40000000000000000000000000000000", "node 0"),
    ("join c0000000000000000000000000000000 0", "node 1"),
    ("cut 0 0 c0000000000000000000000000000000", "ok"),
    ("cut 0 0 80000000000000000000000000000000", "ok"),
    ("leave 1", "ok"),
    ("retire 1", "ok"),
    ("give 0 0 1", "message 0"),
    ("give 0 0 1", "message 1"),
    ("deliver 1", "declined 2"),
    ("deliver 0", "declined 3"),
    ("deliver 2", "held"),
    ("holder c0000000000000000000000000000000", "node 0"),
    ("holder 80000000000000000000000000000000", "underway 0 1 1"),
    ("deliver 3", "held"),
    ("holder 80000000000000000000000000000000", "node 0"),
];

/// The newer of two notes is met first, and the other one late. Each is met again, and a caller
/// meets its own.
const NOTES: &[Row] = &[
    ("create 40000000000000000000000000000000", "node 0"),
    ("caller", "caller 0"),
    ("caller", "caller 1"),
    ("insert 1 0 61 78", "message 0"),
    ("deliver 0", "told 1"),
    ("deliver 1", "fresh added"),
    ("show 1", "message 2"),
    ("remove 1 0 61 78", "message 3"),
    ("deliver 3", "told 4"),
    ("deliver 4", "fresh removed"),
    ("show 1", "message 5"),
    ("meet 0 5", "met"),
    ("meet 0 2", "met"),
    ("meet 0 5", "met"),
    ("meet 1 2", "met"),
    ("retrieve 0 0 61", "message 6"),
    ("deliver 6", "told 7"),
    ("deliver 7", "fresh values 0"),
    ("deliver 2", "refused 9 NeedsMeet"),
    ("history", "history 3"),
];

/// A call that went on to another node is lost there, and comes again, late and repeated.
const FORWARDED: &[Row] = &[
    ("create 40000000000000000000000000000000", "node 0"),
    ("caller", "caller 0"),
    ("join c0000000000000000000000000000000 0", "node 1"),
    ("rectify 0 1", "ok"),
    ("candidate 0 1", "ok"),
    ("cut 0 0 c0000000000000000000000000000000", "ok"),
    ("give 0 0 1", "message 0"),
    ("deliver 0", "got 1"),
    ("insert 0 0 616263 78", "message 2"),
    ("deliver 2", "forward 3"),
    ("deliver 2", "forward 4"),
    ("deliver 4", "told 5"),
    ("deliver 5", "fresh added"),
    ("deliver 3", "told 6"),
    ("deliver 6", "known"),
    ("remove 0 0 616263 78", "message 7"),
    ("deliver 7", "forward 8"),
    ("deliver 8", "told 9"),
    ("deliver 9", "fresh removed"),
    ("deliver 3", "dropped"),
    ("deliver 2", "forward 10"),
    ("deliver 10", "dropped"),
    ("history", "history 2"),
];

/// Each kind of message that is for a node comes to one that crashed. What that node held or gave
/// away stays where it was.
const CRASHED: &[Row] = &[
    ("create 40000000000000000000000000000000", "node 0"),
    ("caller", "caller 0"),
    ("join c0000000000000000000000000000000 0", "node 1"),
    ("join 80000000000000000000000000000000 0", "node 2"),
    ("cut 0 0 c0000000000000000000000000000000", "ok"),
    ("leave 2", "ok"),
    ("retire 2", "ok"),
    ("give 0 0 1", "message 0"),
    ("deliver 0", "got 1"),
    ("cut 1 0 80000000000000000000000000000000", "ok"),
    ("give 1 0 0", "message 2"),
    ("deliver 2", "got 3"),
    ("give 1 0 2", "message 4"),
    ("deliver 4", "declined 5"),
    ("give 0 1 1", "message 6"),
    ("insert 0 1 616263 78", "message 7"),
    ("crash 1", "ok"),
    ("deliver 3", "refused 9 Crashed"),
    ("deliver 5", "refused 9 Crashed"),
    ("deliver 6", "refused 9 Crashed"),
    ("deliver 7", "refused 9 Crashed"),
    ("deliver 1", "freed"),
    ("holder 80000000000000000000000000000000", "underway 0 1 2"),
    ("holder c0000000000000000000000000000000", "underway 1 2 1"),
    ("history", "history 0"),
];

/// A crashed node is rescued, and hands over what it held; then it is gone. A call that it executed
/// before is sent again behind the rescue, and acts once.
const RESCUED: &[Row] = &[
    ("rescue 1", "refused 2 NotCreated"),
    ("create 40000000000000000000000000000000", "node 0"),
    ("caller", "caller 0"),
    ("join c0000000000000000000000000000000 0", "node 1"),
    ("cut 0 0 c0000000000000000000000000000000", "ok"),
    ("give 0 0 1", "message 0"),
    ("deliver 0", "got 1"),
    ("insert 0 1 616263 78", "message 2"),
    ("deliver 2", "told 3"),
    ("rescue 9", "refused 3 NoSuchNode"),
    ("rescue 1", "refused 9 NotCrashed"),
    ("crash 1", "ok"),
    ("deliver 2", "refused 9 Crashed"),
    ("rescue 1", "ok"),
    ("rescue 1", "refused 9 NotCrashed"),
    ("leave 1", "refused 9 NotStaying"),
    ("crash 1", "refused 3 NoSuchNode"),
    ("stabilise 1", "refused 3 NoSuchNode"),
    ("rectify 1 0", "refused 3 NoSuchNode"),
    ("retire 1", "refused 9 NotEmpty"),
    ("holder a9993e364706816aba3e25717850c26c", "node 1"),
    ("give 1 0 0", "message 4"),
    ("deliver 4", "got 5"),
    ("deliver 5", "freed"),
    ("retire 1", "ok"),
    ("rescue 1", "refused 9 NotCrashed"),
    ("resend 0 0", "message 6"),
    ("deliver 6", "told 7"),
    ("deliver 7", "fresh added"),
    ("deliver 3", "known"),
    ("holder a9993e364706816aba3e25717850c26c", "node 0"),
    ("history", "history 1"),
];

/// A node that was leaving when it crashed takes each kind of message that is for it behind the
/// rescue, cuts, merges and sends a part again. The ring goes on without it.
const RESCUED_LEAVING: &[Row] = &[
    ("create 40000000000000000000000000000000", "node 0"),
    ("caller", "caller 0"),
    ("join c0000000000000000000000000000000 0", "node 1"),
    ("join 80000000000000000000000000000000 0", "node 2"),
    ("candidate 0 2", "ok"),
    ("cut 0 0 c0000000000000000000000000000000", "ok"),
    ("give 0 0 1", "message 0"),
    ("leave 2", "ok"),
    ("retire 2", "ok"),
    ("deliver 0", "got 1"),
    ("give 1 0 2", "message 2"),
    ("deliver 2", "declined 3"),
    ("leave 1", "ok"),
    ("insert 0 1 616263 78", "message 4"),
    ("crash 1", "ok"),
    ("deliver 3", "refused 9 Crashed"),
    ("part 1 2 1 1", "refused 9 Crashed"),
    ("rescue 1", "ok"),
    ("part 1 2 1 1", "message 5"),
    ("deliver 3", "held"),
    ("deliver 4", "told 6"),
    ("cut 1 0 80000000000000000000000000000000", "ok"),
    ("merge 1 0 1", "ok"),
    ("give 0 0 1", "message 7"),
    ("deliver 7", "got 8"),
    ("deliver 8", "freed"),
    ("finger 1 1 0", "ok"),
    ("drop 0", "ok"),
    ("list 0", "list 0"),
    (
        "join 80000000000000000000000000000001 1",
        "refused 3 NoSuchNode",
    ),
    ("candidate 0 1", "refused 9 Dead"),
    ("history", "history 1"),
];

/// Each script, with how many pairs the stores have room for.
const SCRIPTS: &[(&[u64], &[Row])] = &[
    (ROOMY, CALLS),
    (ROOMY, TURNED_CALLS),
    (ROOMY, REPLIES),
    (&[1], FULL),
    (ROOMY, PARTS),
    (ROOMY, TURNED_GOTS),
    (ROOMY, DECLINED),
    (ROOMY, TURNED_DECLINED),
    (ROOMY, NOTES),
    (ROOMY, FORWARDED),
    (THREE, CRASHED),
];

/// Requests that their callers give up.
const GIVEN_UP_SCRIPTS: &[(&[u64], &[Row])] = &[
    (ROOMY, GIVEN_UP),
    (&[1], GIVEN_UP_FULL),
    (&[1], GIVEN_UP_TWICE),
];

/// Crashed nodes that are rescued.
const RESCUE_SCRIPTS: &[(&[u64], &[Row])] = &[(ROOMY, RESCUED), (THREE, RESCUED_LEAVING)];

/// Runs each script, and checks each line that it writes.
fn run_all<R: Abort>(rt: &R, alloc: Global, scripts: &[(&[u64], &[Row])]) -> Result<(), Fail> {
    for (limits, rows) in scripts {
        let wrong = first_wrong(alloc, limits, rows)?;
        assert!(rt; wrong.is_none(), "{wrong:?}");
    }
    Ok(())
}

#[test]
fn messages_are_disturbed(rt: HostRuntime) -> Result<(), Fail> {
    run_all(&rt, rt.alloc(), SCRIPTS)
}

#[test]
fn requests_are_given_up(rt: HostRuntime) -> Result<(), Fail> {
    run_all(&rt, rt.alloc(), GIVEN_UP_SCRIPTS)
}

#[test]
fn crashed_nodes_are_rescued(rt: HostRuntime) -> Result<(), Fail> {
    run_all(&rt, rt.alloc(), RESCUE_SCRIPTS)
}

/// The second of two parts comes first, twice, and once more after the handover was taken.
const TURNED_PARTS: &str = concat!(
    "join c0000000000000000000000000000000 0\ncut 0 0 c0000000000000000000000000000000\n",
    "give 0 0 1\npart 0 1 1 2\ndeliver 131\ndeliver 131\n",
    "holder 80000000000000000000000000000000\ndeliver 130\n",
    "holder 80000000000000000000000000000000\ndeliver 131\ndeliver 133\ndeliver 132\n",
);

const TURNED_PARTS_WRITES: &str = concat!(
    "node 1\nok\nmessage 130\nmessage 131\npart\npart\nunderway 0 1 1\ngot 132\nnode 1\n",
    "got 133\nfreed\nunknown\n",
);

/// A node with 65 values gives them in two parts.
fn over_turned_parts(alloc: Global) -> Option<Ran> {
    let (mut script, mut wanted) = sixty_five_values(alloc).ok()?;
    script.push_str(TURNED_PARTS).ok()?;
    wanted.push_str(TURNED_PARTS_WRITES).ok()?;
    over_two(alloc, u64::MAX, script.as_str(), wanted.as_str())
}

#[test]
fn parts_come_in_the_other_order(rt: HostRuntime) {
    check!(&rt; over_turned_parts(rt.alloc()) == DONE);
}
