//! Which calls are refused, and in which order.
ghost use Rattle.std.specs.Prelude.{◌≡◌};

use super::asking::said;
use super::following::follow_rings;
use super::{founded, parts_with, settings};
use crate::checks::check;
use chord_live::OpenCaller;
use chord_live_ring::{RingParts, Settings};
use chord_live_types::NewFault;
use chord_map::Request;
use chord_store::CappedStore;
use chord_table::Naming;
use std::alloc::Global;
use std::marker::Brand;
use std::process::Abort;
use std::sync::Wait;
use std::test::Fail;
use std::thread;
use std::thread::Threads;
use std::time::{Clock, Duration};

/// Slots, callers, tries, milliseconds and successors, and whether a ring may have these.
const SETTINGS: &[([usize; 3], [u64; 2], bool)] = &[
    ([1, 0, 2], [1, 1], true),
    ([4_096, 16_384, 16], [1_000, 60_000], true),
    ([0, 1, 3], [1, 1], false),
    ([4_097, 1, 3], [1, 1], false),
    ([1, 16_385, 3], [1, 1], false),
    ([1, 1, 1], [1, 1], false),
    ([1, 1, 17], [1, 1], false),
    ([1, 1, 3], [0, 1], false),
    ([1, 1, 3], [1_001, 1], false),
    ([1, 1, 3], [1, 0], false),
    ([1, 1, 3], [1, 60_001], false),
];

#[test]
fn settings_have_limits(rt: HostRuntime) {
    for ([slots, callers, successors], [tries, wait_ms], are_good) in SETTINGS {
        let limits = Settings {
            successors: *successors,
            ..settings(*slots, *callers, *tries, *wait_ms)
        };
        let made = RingParts::new(rt.alloc(), limits);
        let is_made = made.is_ok();
        let is_bad = matches!(&made, Err(NewFault::BadSettings));
        drop(made);
        assert!(rt; limits.are_within() == *are_good, "{limits:?}");
        assert!(rt; (is_made, is_bad) == (*are_good, !*are_good), "{limits:?}");
    }
}

const NODES: &str = "
== 2 1 1 10 3 a ring refuses
# there is no node 0 yet
tick 0 > Err(NoSuchNode)
crash 0 > Err(NoSuchNode)
work 0 > Err(NoSuchNode)
# the first node has number 0, and a ring is created once; a refused node's store comes back
create A 1 > 0@A
admitted 0 > Yes
admitted 1 > No
live 0 > Yes
live 1 > No
create A 1 > AlreadyCreated, back with 0, Ok(Added), Err(Full)
# two nodes have two identifiers, and a node joins by one that exists
join A 0 1 > IdTaken, back with 0, Ok(Added), Err(Full)
join C 5 1 > NoSuchNode, back with 0, Ok(Added), Err(Full)
join C 0 1 > 1@C
# a ring of two slots has no third node
join B 0 1 > NoSlot, back with 0, Ok(Added), Err(Full)
tick 0 > Ok(Busy)
# an unknown node neither leaves nor retires
leave 2 > Err(NoSuchNode)
retire 2 > Err(NoSuchNode)
# a staying node does not retire, a node leaves once, and retires if it holds nothing
retire 0 > Err(NotLeaving)
leave 1 > Ok(())
leave 1 > Err(NotStaying)
retire 1 > Ok(())
leave 0 > Ok(())
retire 0 > Err(NotEmpty)
stopped > No
# in a stopped ring nobody joins, is created, is ticked or is admitted
stop > Done
stopped > Yes
join B 0 1 > Stopped, back with 0, Ok(Added), Err(Full)
create B 1 > Stopped, back with 0, Ok(Added), Err(Full)
tick 0 > Err(Stopped)
caller 1 > Stopped
client 1 > Stopped
";

const CALLERS: &str = "
== 1 1 1 1 3 a caller refuses
# a ring with one caller, whose window has two requests
create A 1 > 0@A
caller 2 > Opened
# a second caller, or a client, would be one too many
caller 1 > CallersSpent
client 1 > CallersSpent
# a request is judged before its node is looked for, also where the caller waits
c0 begin 5 retrieve \"\" > Submit(Bad(KeyEmpty))
c0 ask 5 retrieve \"\" > Begin(Submit(Bad(KeyEmpty)))
# an unknown node is asked nothing, and nothing is carried from it
c0 begin 5 retrieve a > NoSuchNode
c0 call 5 retrieve a > Begin(NoSuchNode)
# a refused request was not begun, is not pending and is not sent again
c0 state > floor 0, least None, waits
c0 collect 1 > NotBegun
c0 retry 0 1 > Idle
# a window of two has room for two, and is looked at before the node is looked for
c0 begin 0 retrieve a > 1
c0 begin 0 retrieve b > 2
c0 state > floor 0, least Some(1), waits 1 2
c0 begin 5 retrieve a > Submit(WindowFull)
c0 ask 5 retrieve a > Begin(Submit(WindowFull))
# a request goes to a node that exists; one without a worker does not answer
c0 retry 5 1 > NoSuchNode
c0 retry 0 1 > Wait(NoAnswer)
c0 collect 2 > Wait(NoAnswer)
c0 state > floor 0, least Some(1), waits 1 2

== 1 1 1 1 3 a client sends no other request again
create A 1 > 0@A
client 1 > Opened
k0 retry 0 1 > Idle
k0 begin 0 retrieve a > 1
k0 retry 0 2 > Idle
k0 retry 5 1 > NoSuchNode
k0 retry 0 1 > Wait(NoAnswer)
k0 state > floor 0, least Some(1), waits 1

== 1 1 1000 60000 3 a stopped ring does not answer
create A 1 > 0@A
caller 2 > Opened
c0 call 0 insert abc x > added
stop > Done
stop > Done
c0 ask 0 retrieve abc > Wait(NoAnswer)
c0 state > floor 1, least Some(2), waits 2
";

#[test]
fn calls_are_refused(rt: HostRuntime) -> Result<(), Fail> {
    follow_rings::<CappedStore, _>(&rt, rt.alloc(), NODES)?;
    follow_rings::<CappedStore, _>(&rt, rt.alloc(), CALLERS)
}

/// A try that is meant to wait for a minute ends when the ring is stopped. Six of them would take
/// longer than all tests may.
#[test]
fn a_stop_ends_a_wait(rt: HostRuntime) {
    for _ in 0..6u64 {
        let parts = parts_with(&rt, rt.alloc(), settings(1, 1, 6, 60_000));
        waits_until_a_stop::<Brand, _>(&rt, rt.alloc(), parts);
    }
}

/// Asks a node that has no worker, and stops the ring meanwhile.
fn waits_until_a_stop<J: Naming + Send + Sync, R: Abort + Threads + Wait + Clock + Sync>(
    rt: &R,
    alloc: Global,
    parts: RingParts,
)
    requires { parts.name ≡ J.name }
{
    let ring = founded::<J, CappedStore, R>(rt, parts, CappedStore::new(alloc, 1));
    let asked = &ring;
    let (unheard, _) = thread::join(
        rt,
        move || {
            let mut caller = asked.open_caller(rt, 1).expect(rt, "a caller");
            let request = Request::insert(alloc, b"abc", b"x").expect(rt, "a request");
            let unheard = said(caller.ask(rt, 0, request));
            drop(caller);
            unheard
        },
        move || {
            thread::sleep(rt, Duration::from_millis(20));
            asked.stop();
        },
    );
    ring.close();
    check!(rt; unheard.as_str() == "Wait(NoAnswer)", "a stopped ring does not answer");
}
